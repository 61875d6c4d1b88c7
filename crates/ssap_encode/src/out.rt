ghost use Rattle.std.specs.Prelude.{List, ℕ, [], ◌++◌};
ghost use Rattle.ssap_encode.specs.Sending.{Sends};

/// Where the pieces of a spelling go, one after another.
pub trait Out {
    /// Why a piece was refused.
    type Fault: Drop;

    /// All of these bytes went out between the two states.
    ghost puts: { Self → Self → List ℕ → Type 0 };

    /// A piece of these bytes was refused between the two states, and none after it was put.
    ghost stops: { Self → Self → List ℕ → Type 0 };

    /// Puts the next piece.
    fn put(&mut self, bytes: &[u8]) -> Result<(), Self::Fault>
        ensures { Sends puts stops self.old self.new result bytes.now };

    /// Nothing is put between a state and itself.
    ghost nothing: { (s : Self) → puts s s [] };

    /// Bytes that are put one after another are put together.
    ghost further: { (s t u : Self) (xs ys : List ℕ) → puts s t xs → puts t u ys → puts s u (xs ++ ys) };

    /// A refusal behind other bytes is a refusal among both.
    ghost stops_behind: { (s t u : Self) (xs ys : List ℕ) → puts s t xs → stops t u ys → stops s u (xs ++ ys) };

    /// A refusal stays one, whatever was to follow.
    ghost stops_before: { (s t : Self) (xs ys : List ℕ) → stops s t xs → stops s t (xs ++ ys) };
}
