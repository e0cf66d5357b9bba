//! The laws of the wire format.

ghost use Rattle.std.specs.Prelude.{◌≡◌, ℕ, ◌+◌, ◌^◌, ◌<◌, ◌≤◌, ◌↔◌, List, ◌++◌, length, take, Some};
ghost use Rattle.hb_wire.specs.Varint.{IsVarint, AreBytes, varint};
ghost use Rattle.hb_wire.specs.Field.{Piece, PieceFits, SpellsField, LiesAt, spelled};
ghost use Rattle.hb_wire.specs.Reading.{varint_at, field_at};

/// The shortest varint of each number spells it, reads back whatever follows, and is one to ten
/// bytes that no other spelling is shorter than.
pub fn shortest_varint()
    ensures spells { (n : ℕ) → n < 2 ^ 64 → IsVarint (varint n) n }
    ensures again { (n : ℕ) (rest : List ℕ) → n < 2 ^ 64
        → varint_at (varint n ++ rest) ≡ Some (n, length (varint n)) }
    ensures size { (n : ℕ) → n < 2 ^ 64 → (0 < length (varint n)) × (length (varint n) ≤ 10) }
    ensures least { (bytes : List ℕ) (n : ℕ) → AreBytes bytes → IsVarint bytes n
        → length (varint n) ≤ length bytes }
{}

/// Bytes start with at most one varint, and it is the one that is read.
pub fn one_varint()
    ensures one { (a b x y : List ℕ) (m n : ℕ) → IsVarint a m → IsVarint b n → a ++ x ≡ b ++ y
        → (a ≡ b) × (m ≡ n) }
    ensures exact { (bytes : List ℕ) (n size : ℕ) → AreBytes bytes
        → (varint_at bytes ≡ Some (n, size)) ↔ ((size ≤ length bytes)
        × IsVarint (take size bytes) n) }
{}

/// The canonical spelling of each field spells it, takes some bytes, and reads back whatever
/// follows.
pub fn canonical_field()
    ensures spells { (piece : Piece) → PieceFits piece → SpellsField (spelled piece) piece }
    ensures again { (piece : Piece) (rest : List ℕ) → PieceFits piece
        → field_at (spelled piece ++ rest) ≡ Some (piece, length (spelled piece)) }
    ensures size { (piece : Piece) → 0 < length (spelled piece) }
{}

/// Bytes start with at most one field, and it is the one that is read. It fits, and a body is the
/// part of the bytes right before its end.
pub fn one_field()
    ensures one { (a b x y : List ℕ) (p q : Piece) → SpellsField a p → SpellsField b q
        → a ++ x ≡ b ++ y → (a ≡ b) × (p ≡ q) }
    ensures exact { (bytes : List ℕ) (piece : Piece) (size : ℕ) → AreBytes bytes
        → (field_at bytes ≡ Some (piece, size))
        ↔ ((size ≤ length bytes) × SpellsField (take size bytes) piece) }
    ensures fits { (bytes : List ℕ) (piece : Piece) (size : ℕ) → AreBytes bytes
        → field_at bytes ≡ Some (piece, size) → PieceFits piece }
    ensures lies { (bytes : List ℕ) (piece : Piece) (size : ℕ) → field_at bytes ≡ Some (piece, size)
        → LiesAt bytes size piece.content }
{}
