//! `challenge CHALLENGES`: the schedule that sends a vendor's challenges.
ghost use Rattle.sm_cli.specs.ChallengeCommand.{challenge_command, read_challenge};

use cli_calls::{Answering, Reading};
use cli_files::{NO_MEMORY, Refused, Status, load, status_after};
use sm_io::{Files, Sink, put_all};
use std::alloc::{AllocError, Global};
use vendor_tool::{Challenges, schedule_text};

/// The argument.
#[derive(Clone, Copy)]
pub struct ChallengeCommand<'a> {
    pub challenges: &'a str,
}

impl<'a> Reading<'a> for ChallengeCommand<'a> {
    ghost asks = { read_challenge };

    fn read_values(_alloc: Global, values: &[&'a str]) -> Result<Option<Self>, AllocError> {
        if values.len() == 1 {
            Ok(Some(ChallengeCommand {
                challenges: values[0],
            }))
        } else {
            Ok(None)
        }
    }
}

impl Answering for ChallengeCommand<'_> {
    ghost asked = { λ c. challenge_command c.challenges.now };

    fn answer<F: Files, O: Sink>(
        &self,
        alloc: Global,
        files: &mut F,
        out: &mut O,
    ) -> Result<Status, Refused<'_>> {
        let challenges = match load::<Challenges, F>(alloc, self.challenges, files) {
            Ok(challenges) => challenges,
            Err(refused) => return Err(refused),
        };
        match schedule_text(alloc, &challenges) {
            Ok(text) => Ok(status_after(put_all(out, text.as_slice()))),
            Err(_) => Err(NO_MEMORY),
        }
    }
}
