//! `IMAGE ID TERMS ARMS`: what is told of a module of an image under terms, with certificates of balanced branches.
ghost use Rattle.std.specs.Prelude.{◌≡◌, ◌≢◌, IsTrue, IfOk, IfErr, false};
ghost use Rattle.std.specs.Option.{option_copied};
ghost use Rattle.mod_layout.specs.Tables.{IsModule};
ghost use Rattle.written_machine.specs.Peers.{section};
ghost use Rattle.sm_io.specs.Faults.{HasCause};
ghost use Rattle.sm_io.specs.Sink.{Took, CutOff};
ghost use Rattle.cli_files.specs.Causes.{IsNeedCause};
ghost use Rattle.cli_files.specs.Files.{Holds, need, terms_file, the_terms};
ghost use Rattle.cli_files.specs.NameText.{name_text};
ghost use Rattle.lab_cli.specs.UnderTerms.{Judging, arms_needs, judged_command, read_judged, told_needs};
ghost use Rattle.lab_cli.specs.internal.UnderTerms.{AreArmsOf, EndsBy};

use crate::public_words::{not_data, put_not_data};
use cli_calls::{Answering, Reading, file_named, id_of};
use cli_files::{Chosen, NO_MEMORY, Refusal, Refused, Status, load, load_with};
use flow_check::Arms;
use sm_io::{Files, Sink};
use std::alloc::{AllocError, Global};
use std::marker::PhantomData;
use terms_file::Terms;

/// What is told of a module under terms.
pub trait JudgedText: Drop {
    /// What comes of it.
    ghost judging: { Judging };

    /// Puts what is told of the module. Without memory nothing was put.
    fn put<O: Sink>(
        alloc: Global,
        chosen: &Chosen,
        told: &Told,
        out: &mut O,
    ) -> Result<Status, AllocError>
        requires { IsModule chosen.now.image.table.given chosen.now.«module» }
        ensures told { IfOk result (λ status. EndsBy (judging told.now.terms.list.items chosen.now.«module»
            (section chosen.now.«module».text chosen.now.image.memory) told.now.arms.list.items) status
            (Took O.taken O.faults O.sure out.old out.new) (CutOff O.taken O.faults O.sure out.old out.new)) }
        ensures nothing { IfErr result (λ _. out.new ≡ out.old) };
}

/// A command that tells it. Its arguments, with no certificates where their word is `-`.
#[derive(Drop)]
pub struct UnderTerms<'a, T> {
    pub image: &'a str,
    pub id: u16,
    pub terms: &'a str,
    pub arms: Option<&'a str>,
    pub text: PhantomData<T>,
}

impl<'a, T: JudgedText> Reading<'a> for UnderTerms<'a, T> {
    ghost asks = { read_judged T.judging };

    fn read_values(_alloc: Global, values: &[&'a str]) -> Result<Option<Self>, AllocError> {
        if values.len() != 4 {
            return Ok(None);
        }
        match id_of(values[1]) {
            Some(id) => Ok(Some(UnderTerms {
                image: values[0],
                id,
                terms: values[2],
                arms: file_named(values[3]),
                text: PhantomData,
            })),
            None => Ok(None),
        }
    }
}

impl<T: JudgedText> Answering for UnderTerms<'_, T> {
    ghost asked = { λ c. judged_command T.judging c.image.now c.id c.terms.now (option_copied c.arms) };

    fn answer<F: Files, O: Sink>(
        &self,
        alloc: Global,
        files: &mut F,
        out: &mut O,
    ) -> Result<Status, Refused<'_>> {
        let chosen = match load_with(alloc, self.image, self.id, files) {
            Ok(chosen) => chosen,
            Err(refused) => return Err(refused),
        };
        let told = match load_told(alloc, self.terms, self.arms, files) {
            Ok(told) => told,
            Err(refused) => return Err(refused),
        };
        if let Some(addr) = not_data(&chosen.module, told.terms.list.as_slice()) {
            return Ok(put_not_data(out, addr));
        }
        match T::put(alloc, &chosen, &told, out) {
            Ok(status) => Ok(status),
            Err(AllocError) => Err(NO_MEMORY),
        }
    }
}

/// What the owner of a module says of it.
#[derive(Drop)]
pub struct Told {
    pub terms: Terms,
    pub arms: Arms,
}

// What the files of terms and of certificates hold.
fn load_told<'a, F: Files>(
    alloc: Global,
    terms: &'a str,
    arms: Option<&'a str>,
    files: &mut F,
) -> Result<Told, Refused<'a>>
    ensures terms { IfOk result (λ told. Holds (F.content files.old) (need terms.now terms_file)
        (the_terms told.terms.list.items)) }
    ensures arms { IfOk result (λ told. AreArmsOf (F.content files.old) (option_copied arms.entry)
        told.arms.list.items) }
    ensures quiet { IfOk result (λ _. HasCause (F.faults files.old) (F.faults files.new) false) }
    ensures refused { IfErr result (λ refused. IsNeedCause (F.content files.old) (F.faults files.old)
        (F.faults files.new) (told_needs terms.now (option_copied arms.entry)) refused.refusal (name_text refused.name)) }
    ensures sound { IsTrue (F.sound files.old) → F.faults files.new ≡ F.faults files.old }
    ensures sound_read { IsTrue (F.sound files.old) →
        IfErr result (λ refused. refused.refusal ≢ Refusal.CannotRead) }
    ensures same_sound { F.sound files.new ≡ F.sound files.old }
    ensures same_files { F.content files.new ≡ F.content files.old }
{
    let said = match load::<Terms, F>(alloc, terms, files) {
        Ok(said) => said,
        Err(refused) => return Err(refused),
    };
    match load_arms(alloc, arms, files) {
        Ok(list) => Ok(Told {
            terms: said,
            arms: list,
        }),
        Err(refused) => Err(refused),
    }
}

// The certificates of the file of that name, or none.
fn load_arms<'a, F: Files>(
    alloc: Global,
    arms: Option<&'a str>,
    files: &mut F,
) -> Result<Arms, Refused<'a>>
    ensures arms { IfOk result (λ read. AreArmsOf (F.content files.old) (option_copied arms.entry) read.list.items) }
    ensures quiet { IfOk result (λ _. HasCause (F.faults files.old) (F.faults files.new) false) }
    ensures refused { IfErr result (λ refused. IsNeedCause (F.content files.old) (F.faults files.old)
        (F.faults files.new) (arms_needs (option_copied arms.entry)) refused.refusal (name_text refused.name)) }
    ensures sound { IsTrue (F.sound files.old) → F.faults files.new ≡ F.faults files.old }
    ensures sound_read { IsTrue (F.sound files.old) →
        IfErr result (λ refused. refused.refusal ≢ Refusal.CannotRead) }
    ensures same_sound { F.sound files.new ≡ F.sound files.old }
    ensures same_files { F.content files.new ≡ F.content files.old }
{
    match arms {
        Some(name) => load::<Arms, F>(alloc, name, files),
        None => Ok(Arms {
            list: Vec::new(alloc),
        }),
    }
}
