//! The laws of the crate's definitions.
ghost use Rattle.std.specs.Prelude.{◌≡◌, ℕ, ◌<◌, List, [], ◌++◌, slice_index};
ghost use Rattle.std.specs.List.{flat_map, AllByRecursion};
ghost use Rattle.hb_frame.specs.Frames.{Frame, IsFrame, frame_bytes};
ghost use Rattle.hb_frame.specs.Cut.{StartsNoFrame, StartsFrames, IsCut, IsUnfinished, HasBadKind, HasLongBody, IsStopped};

/// Bytes are cut into frames in one way, and only one. Frames that begin some bytes are the first
/// ones of these bytes' cut, whatever comes behind them; and whole frames that were put one after
/// another are cut into themselves.
pub fn one_cut()
    ensures each { (bytes : List ℕ) → ((i : ℕ) → slice_index bytes i < 256)
        → (frames : List Frame) × (rest : List ℕ) × IsCut bytes frames rest }
    ensures one { (bytes x y : List ℕ) (fs gs : List Frame) → IsCut bytes fs x → IsCut bytes gs y
        → (fs ≡ gs) × (x ≡ y) }
    ensures first { (bytes more x y : List ℕ) (fs gs : List Frame) → StartsFrames bytes fs x
        → IsCut (bytes ++ more) gs y → (others : List Frame) × (gs ≡ fs ++ others) }
    ensures put { (frames : List Frame) → AllByRecursion IsFrame frames
        → IsCut (flat_map frame_bytes frames) frames [] }
{}

/// Where no whole frame begins bytes, there is a cause; where there is one, none begins them; and no
/// two causes stand together.
pub fn one_cause()
    ensures each { (bytes : List ℕ) → ((i : ℕ) → slice_index bytes i < 256)
        → StartsNoFrame bytes → IsStopped bytes }
    ensures none { (bytes : List ℕ) → IsStopped bytes → StartsNoFrame bytes }
    ensures alone { (bytes : List ℕ) (kind size : ℕ)
        → (IsUnfinished bytes → HasBadKind bytes kind → ⊥)
        × (IsUnfinished bytes → HasLongBody bytes size → ⊥)
        × (HasBadKind bytes kind → HasLongBody bytes size → ⊥) }
{}

/// A fault stays, whatever bytes come behind it.
pub fn faults_stay()
    ensures bad_kind { (bytes more : List ℕ) (kind : ℕ) → HasBadKind bytes kind
        → HasBadKind (bytes ++ more) kind }
    ensures long_body { (bytes more : List ℕ) (size : ℕ) → HasLongBody bytes size
        → HasLongBody (bytes ++ more) size }
{}
