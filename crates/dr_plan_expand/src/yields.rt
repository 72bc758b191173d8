//! What the elements of a list yield, one after another.
ghost use Rattle.std.specs.Prelude.{◌≡◌, ◌++◌, IfOk, IfErr, OnOk, List};
ghost use Rattle.dr_plan_expand.specs.Lists.{Yields};
ghost use Rattle.dr_plan_expand.specs.declared.fault.WordFault.TheVariants.{Unknown};

use crate::fault::WordFault;
use dr_base::Seq;
use std::alloc::{AllocError, Global};

/// A way in which elements yield things.
pub trait Yielding {
    type Element;

    type Thing: Drop;

    ghost yields: { Self → Self.Element → List Self.Thing → Type 0 };

    /// What the element yields. Unknown where it yields nothing whatever.
    fn things(&self, alloc: Global, element: &Self::Element) -> Result<Seq<Self::Thing>, WordFault>
        ensures ok { IfOk result (yields self.now element.now) }
        ensures unknown { IfErr result (λ e.
            e ≡ Unknown → (things : List Self.Thing) → yields self.now element.now things → ⊥) };
}

/// Adds things at the end.
fn append<T: Drop>(out: &mut Vec<T>, things: Seq<T>) -> Result<(), AllocError>
    ensures { OnOk result (out.new.items ≡ out.old.items ++ things) }
{
    for thing in things.into_vec() {
        out.push(thing)?;
    }
    Ok(())
}

/// What the elements yield, one after another.
pub fn all<Y: Yielding>(
    way: &Y,
    alloc: Global,
    elements: &[Y::Element],
) -> Result<Seq<Y::Thing>, WordFault>
    ensures ok { IfOk result (Yields (Y.yields way.now) elements.now) }
    ensures unknown { IfErr result (λ e.
        e ≡ Unknown → (things : List Y.Thing) → Yields (Y.yields way.now) elements.now things → ⊥) }
{
    let mut out = Vec::new(alloc);
    for element in elements {
        append(&mut out, way.things(alloc, element)?)?;
    }
    Ok(Seq::from_vec(out))
}
