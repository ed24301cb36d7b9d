// `LAYOUT OBJ..`: a text that is written of a layout and the objects that link.
ghost use Rattle.std.specs.Prelude.{◌≡◌, ◌≤◌, ℕ, List, All, None, IfErr, IfOk, OnOk, length, map};
ghost use Rattle.elf_objects.specs.Object.{ObjectValue};
ghost use Rattle.layout_file.specs.Layout.{layout_of};
ghost use Rattle.layout_file.specs.Values.{LayoutValue};
ghost use Rattle.linker.specs.Refusals.{link_fault_of};
ghost use Rattle.linker.specs.Room.{IsSmall};
ghost use Rattle.cli_files.specs.NameText.{name_text};
ghost use Rattle.cli_files.specs.Unlinked.{IsUnlinked};
ghost use Rattle.cli_calls.specs.Linking.{objects_command, read_objects};

use crate::answering::Answering;
use crate::reading::Reading;
use cli_files::{Refused, Status, load, load_objects, status_after};
use elf_objects::Object;
use layout_file::Layout;
use sm_io::{Files, Sink, put_all};
use std::alloc::{AllocError, Global};
use std::marker::PhantomData;

/// A text of a layout and objects.
pub trait ObjectsText: Drop {
    /// The text.
    ghost written: { LayoutValue → List ObjectValue → List ℕ };

    /// The text, where the objects link.
    fn write<'a>(alloc: Global, layout: &Layout, objects: &[Object]) -> Result<Vec<u8>, Refused<'a>>
        requires few { length objects.now ≤ 64 }
        requires small { All IsSmall objects.now }
        ensures text { IfOk result (λ text. text.items ≡ written (layout_of layout.now) objects.now) }
        ensures sound { OnOk result (link_fault_of (layout_of layout.now) objects.now ≡ None) }
        ensures refused { IfErr result (λ refused. IsUnlinked (layout_of layout.now) objects.now refused.refusal
            (name_text refused.name)) };
}

/// A command that writes such a text. Its arguments: a layout, and 1 to 64 objects.
#[derive(Drop)]
pub struct ObjectsCommand<'a, T> {
    pub layout: &'a str,
    pub objects: Vec<&'a str>,
    pub text: PhantomData<T>,
}

impl<'a, T: ObjectsText> Reading<'a> for ObjectsCommand<'a, T> {
    ghost asks = { read_objects T.written };

    ghost few = { λ n. n ≤ 65 };

    fn read_values(alloc: Global, values: &[&'a str]) -> Result<Option<Self>, AllocError> {
        match values {
            [layout, objects @ ..] => Ok(Some(ObjectsCommand {
                layout,
                objects: objects.to_vec(alloc)?,
                text: PhantomData,
            })),
            [] => Ok(None),
        }
    }
}

impl<T: ObjectsText> Answering for ObjectsCommand<'_, T> {
    ghost asked = { λ c. objects_command T.written c.layout.now (map (λ o. o.now) c.objects.items) };

    ghost bounds = { λ c. length c.objects.items ≤ 64 };

    fn answer<F: Files, O: Sink>(
        &self,
        alloc: Global,
        files: &mut F,
        out: &mut O,
    ) -> Result<Status, Refused<'_>> {
        let layout = match load::<Layout, F>(alloc, self.layout, files) {
            Ok(layout) => layout,
            Err(refused) => return Err(refused),
        };
        let objects = match load_objects(alloc, self.objects.as_slice(), files) {
            Ok(objects) => objects,
            Err(refused) => return Err(refused),
        };
        match T::write(alloc, &layout, objects.as_slice()) {
            Ok(text) => Ok(status_after(put_all(out, text.as_slice()))),
            Err(refused) => Err(refused),
        }
    }
}
