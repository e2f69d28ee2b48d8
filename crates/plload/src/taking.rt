//! What a clause or a directive of a text changes: the operators and the flags.
ghost use Rattle.std.specs.Prelude.{◌≡◌, IfOk};
ghost use Rattle.plload.specs.Taking.{taken, Answers};
ghost use Rattle.plload.specs.Shown.{shown};

use crate::error::RefusalKind;
use crate::meaning::Meaning;
use plprogram::change::declare;
use plprogram::settings::Settings;
use std::alloc::AllocError;

/// Takes what a clause or a directive does to the settings, or says why it is refused. After a refusal they are of no use.
pub fn take(settings: &mut Settings, meaning: &Meaning) -> Result<Option<RefusalKind>, AllocError>
    ensures { IfOk result (Answers (taken settings.old (shown meaning.now)) settings.new) }
{
    match meaning {
        Meaning::Adds(_) | Meaning::Runs(_) | Meaning::Declares(_) | Meaning::Passes => Ok(None),
        Meaning::Operates(priority, kind, names) => {
            match declare(&mut settings.operators, *priority, *kind, names)? {
                Ok(()) => Ok(None),
                Err(_) => Ok(Some(RefusalKind::BadDirective)),
            }
        }
        Meaning::Sets(flag) => {
            settings.set(*flag);
            Ok(None)
        }
        Meaning::Refused(kind) => Ok(Some(*kind)),
    }
}
