// The line of a refusal.
ghost use Rattle.std.specs.Prelude.{◌≡◌, IfOk, string_bytes};
ghost use Rattle.trace.specs.Texts.{refused_line};

use plan::BuildRefusal;
use std::alloc::{AllocError, Global};

/// The line of a refused plan, or of a refused image.
pub(crate) fn refused(heap: Global, refusal: BuildRefusal) -> Result<String, AllocError>
    ensures { IfOk result (λ s. string_bytes s ≡ refused_line refusal) }
{
    let number = refusal.number();
    format!(in heap; "refused {number} 0 0: {refusal}\n")
}
