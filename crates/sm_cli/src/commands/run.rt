//! `run LAYOUT SCHEDULE CYCLES OBJ..`: the outside trace of the image that objects link to.
ghost use Rattle.std.specs.Prelude.{◌≤◌, length};
ghost use Rattle.image_text.specs.Image.{IsImage};
ghost use Rattle.cli_calls.specs.declared.values.TheConstants.{MAX_CYCLES};
ghost use Rattle.sm_cli.specs.RunCommand.{read_run};
ghost use Rattle.sm_cli.specs.internal.RunCommand.{run_asked};

use crate::commands::image::Trace;
use board::Board;
use cli_calls::{Answering, Reading, RunText, file_named, read_cycles};
use cli_files::{NO_MEMORY, Refused, Status, linked_image, load, load_objects, load_schedule};
use image_text::Image;
use layout_file::Layout;
use sm_io::{Files, Sink};
use std::alloc::{AllocError, Global};

/// The arguments, with no schedule where its word is `-`.
#[derive(Drop)]
pub struct RunCommand<'a> {
    pub layout: &'a str,
    pub schedule: Option<&'a str>,
    pub cycles: u64,
    pub objects: Vec<&'a str>,
}

impl<'a> Reading<'a> for RunCommand<'a> {
    ghost asks = { read_run };

    ghost few = { λ n. n ≤ 67 };

    fn read_values(alloc: Global, values: &[&'a str]) -> Result<Option<Self>, AllocError> {
        match values {
            [layout, schedule, cycles, objects @ ..] => match read_cycles(cycles) {
                Some(cycles) => Ok(Some(RunCommand {
                    layout,
                    schedule: file_named(schedule),
                    cycles,
                    objects: objects.to_vec(alloc)?,
                })),
                None => Ok(None),
            },
            _ => Ok(None),
        }
    }
}

impl Answering for RunCommand<'_> {
    ghost asked = { λ c. run_asked c };

    ghost bounds = { λ c. (length c.objects.items ≤ 64) × (c.cycles ≤ MAX_CYCLES) };

    fn answer<F: Files, O: Sink>(
        &self,
        alloc: Global,
        files: &mut F,
        out: &mut O,
    ) -> Result<Status, Refused<'_>> {
        let layout = match load::<Layout, F>(alloc, self.layout, files) {
            Ok(layout) => layout,
            Err(refused) => return Err(refused),
        };
        let schedule = match load_schedule(alloc, self.schedule, files) {
            Ok(schedule) => schedule,
            Err(refused) => return Err(refused),
        };
        let objects = match load_objects(alloc, self.objects.as_slice(), files) {
            Ok(objects) => objects,
            Err(refused) => return Err(refused),
        };
        let image = match linked_image(alloc, &layout, objects.as_slice()) {
            Ok(image) => image,
            Err(refused) => return Err(refused),
        };
        tell_image(&image);
        match Board::new(alloc, &image, &schedule) {
            Ok(board) => Ok(Trace::put(board, self.cycles, out)),
            Err(_) => Err(NO_MEMORY),
        }
    }
}

// What objects link to is an image. It does nothing.
fn tell_image(image: &Image)
    ensures { IsImage image.now }
{
    let _memory = &image.memory;
}
