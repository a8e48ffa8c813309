//! What gives a content its digest.

ghost use Rattle.std.specs.Prelude.{◌≡◌, ℕ, List, [], ◌++◌, length};

/// Gives a content its digest: a function of its bytes, however they are cut into pieces. Contents that differ may
/// have one digest.
pub trait Namer: Copy {
    // the digest of a content
    ghost digest_of: { List ℕ → List ℕ };

    /// A digest that is being made, of the pieces that it was given.
    type State: Drop;

    // the state has taken in this content
    ghost holds: { Self.State → List ℕ → Type 0 };

    /// The digest of a content.
    fn name(&self, content: &[u8]) -> [u8; 16]
        ensures { result ≡ digest_of content.now };

    /// The digest of the empty content, to which pieces come.
    fn start(&self) -> Self::State
        ensures { holds result [] };

    /// Takes in the next piece of the content.
    fn update(&self, state: &mut Self::State, piece: &[u8])
        ensures { (content : List ℕ) → holds state.old content → holds state.new (content ++ piece.now) };

    /// The digest of all pieces so far, to which more may come.
    fn so_far(&self, state: &Self::State) -> [u8; 16]
        ensures { (content : List ℕ) → holds state.now content → result ≡ digest_of content };

    /// The digest of all pieces, one behind the other.
    fn finish(&self, state: Self::State) -> [u8; 16]
        ensures { (content : List ℕ) → holds state content → result ≡ digest_of content };

    // a digest has 16 bytes
    ghost has_16_bytes: { (content : List ℕ) → length (digest_of content) ≡ 16 };
}
