//! Values on the heap.
ghost use Rattle.std.specs.Prelude.{◌≡◌, IfOk};

use std::alloc::{AllocError, Global};

/// Puts a value on the heap. It fails for want of memory alone. A caller that has more at hand than
/// the value is proved faster so than where it asks for the memory itself.
pub fn boxed<T: Drop>(alloc: Global, value: T) -> Result<Box<T>, AllocError>
    ensures { IfOk result (λ b. b.value ≡ value) }
{
    let boxed = Box::new(alloc, value)?;
    Ok(boxed)
}
