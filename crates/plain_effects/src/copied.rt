//! The clipboard that a job's command names.
ghost use Rattle.std.specs.Prelude.{◌≡◌, IfSome};
ghost use Rattle.clipboard_transform.specs.Bounds.{IsOnMap};
ghost use Rattle.plain_terms.specs.Clipboards.{some_clipboard};
ghost use Rattle.plain_effects.specs.Jobs.{own_task};

use crate::job::Job;
use plain_terms::Clipboard;

/// The clipboard, if the command has one.
pub(crate) fn clipboard_of<'a>(job: &Job<'a>) -> Option<Clipboard<'a>>
    requires { IfSome job.now.spec.clip (λ c. IsOnMap c.origin) }
    ensures { some_clipboard result ≡ (own_task job.now).copied }
{
    match &job.spec.clip {
        None => None,
        Some(clip) => Some(Clipboard::new(clip, job.earlier)),
    }
}
