// The lines before the start.
ghost use Rattle.std.specs.Prelude.{◌≡◌, IfOk};
ghost use Rattle.std.specs.Option.{option_map};
ghost use Rattle.lines.specs.Views.{viewed};
ghost use Rattle.script.specs.Settings.{setting_of, unset, heard};

use crate::setting::{Heard, Setting};
use lines::Line;
use plans::{Appointment, Sizes};
use std::alloc::{AllocError, Global};

impl Setting {
    pub fn new(heap: Global) -> Setting
        ensures { setting_of result ≡ unset }
    {
        Setting {
            sizes: None,
            agenda: Vec::new(heap),
        }
    }

    // Takes a line, None where it is unreadable.
    pub fn hear(&mut self, line: Option<Line>) -> Result<Heard, AllocError>
        ensures { IfOk result (λ h. (h, setting_of self.new) ≡ heard (option_map viewed line) (setting_of self.old)) }
    {
        match (self.sizes, line) {
            (None, Some(Line::Bench { n, f, d, e })) => {
                self.sizes = Some(Sizes { n, f, d, e });
                Ok(Heard::Kept)
            }
            (Some(_), Some(Line::Item { sender, reading })) => {
                self.agenda.push(Appointment { sender, reading })?;
                Ok(Heard::Kept)
            }
            (Some(sizes), Some(Line::Start { kind, scheme })) => Ok(Heard::Start(
                sizes, kind, scheme,
            )),
            _ => Ok(Heard::OutOfOrder),
        }
    }
}
