ghost use Rattle.std.specs.Prelude.{◌≡◌, ℕ, List, [], ◌++◌, flat_map};
ghost use Rattle.ssap_encode.specs.Sending.{Sends};

use crate::out::Out;

/// What has a spelling. This is the one walk over an envelope: where the pieces go is left open.
pub trait Spell {
    /// The bytes that are written for it.
    ghost spelling: { Self → List ℕ };

    /// Puts the spelling piece by piece.
    fn put<O: Out>(&self, out: &mut O) -> Result<(), O::Fault>
        ensures { Sends O.puts O.stops out.old out.new result (spelling self.now) };
}

impl<T: Spell> Spell for &T {
    ghost spelling = { λ s. T.spelling s.now };

    fn put<O: Out>(&self, out: &mut O) -> Result<(), O::Fault> {
        (**self).put(out)
    }
}

/// Nothing at all.
#[derive(Drop)]
pub struct Nothing;

impl Spell for Nothing {
    ghost spelling = { λ _. [] };

    fn put<O: Out>(&self, _out: &mut O) -> Result<(), O::Fault> {
        Ok(())
    }
}

/// Bytes as they are.
#[derive(Drop)]
pub struct Raw<'a>(pub &'a [u8]);

impl Spell for Raw<'_> {
    ghost spelling = { λ s. s.0.now };

    fn put<O: Out>(&self, out: &mut O) -> Result<(), O::Fault> {
        out.put(self.0)
    }
}

/// One spelling behind another.
#[derive(Drop)]
pub struct Then<A, B>(pub A, pub B);

/// Several spellings, one behind another.
macro_rules! in_order {
    ($all:expr) => { $all };
    ($first:expr, $second:expr $(, $more:expr)*) => {
        $crate::spell::in_order!($crate::spell::Then($first, $second) $(, $more)*)
    };
}

pub(crate) use in_order;

impl<A: Spell, B: Spell> Spell for Then<A, B> {
    ghost spelling = { λ s. A.spelling s.0 ++ B.spelling s.1 };

    fn put<O: Out>(&self, out: &mut O) -> Result<(), O::Fault> {
        self.0.put(out)?;
        self.1.put(out)
    }
}

/// The items of a list, one behind another.
#[derive(Drop)]
pub struct Each<'a, T>(pub &'a [T]);

impl<T: Spell> Spell for Each<'_, T> {
    ghost spelling = { λ s. flat_map T.spelling s.0.now };

    fn put<O: Out>(&self, out: &mut O) -> Result<(), O::Fault> {
        for item in self.0 {
            item.put(out)?;
        }
        Ok(())
    }
}
