//! The laws of the definitions, for every row.
ghost use Rattle.std.specs.Prelude.{◌≡◌, ◌<◌, ◌≤◌, ◌^◌, ℕ, List, ◌++◌, Some, None, length};
ghost use Rattle.std.specs.List.{flat_map, AllByRecursion};
ghost use Rattle.hb_wire.specs.Varint.{AreBytes};
ghost use Rattle.hb_wire.specs.Field.{SpellsField};
ghost use Rattle.hb_schema.specs.Fields.{Part, StartsNoField, parts};
ghost use Rattle.hb_schema.specs.Rows.{Row, Meaning, IsRow};
ghost use Rattle.hb_schema.specs.Reading.{reads};
ghost use Rattle.hb_schema.specs.Writing.{writes};
ghost use Rattle.hb_schema.specs.Fits.{Fits};
ghost use Rattle.hb_schema.specs.Faults.{row_fault};
ghost use Rattle.hb_schema.specs.AllFaults.{HasFault, place_of};
ghost use Rattle.hb_schema.specs.Steps.{merged};
ghost use Rattle.hb_schema.specs.Table.{table};
ghost use Rattle.hb_schema.specs.declared.fault.DecodeFault.{DecodeFault};

/// Each row of the table is the row of a message.
pub fn table_of_rows()
    ensures rows { AllByRecursion IsRow table }
{}

/// Read one field after another, bytes with no fault are what they read as number by number; and
/// bodies that have no fault, joined, read as the first with the fields of the second.
pub fn merged_is_read()
    ensures alone { (row : Row) (place : ℕ) (bytes : List ℕ) → IsRow row → AreBytes bytes
        → row_fault row place bytes ≡ None → merged row None bytes ≡ reads row bytes }
    ensures joined { (row : Row) (place there : ℕ) (bytes more : List ℕ) → IsRow row
        → AreBytes bytes → AreBytes more
        → row_fault row place bytes ≡ None → row_fault row there more ≡ None
        → reads row (bytes ++ more) ≡ merged row (Some (reads row bytes)) more }
{}

/// What is read of bytes that have no fault has a spelling.
pub fn read_fits()
    ensures fits { (row : Row) (place : ℕ) (bytes : List ℕ) → IsRow row → AreBytes bytes
        → row_fault row place bytes ≡ None → Fits row (reads row bytes) }
{}

/// What was written has no fault, and reads as the message that was written, where its length is a
/// number of 64 bits.
pub fn written_is_read()
    ensures no_fault { (row : Row) (place : ℕ) (m : Meaning row) → IsRow row → Fits row m
        → length (writes row m) < 2 ^ 64 → row_fault row place (writes row m) ≡ None }
    ensures reads { (row : Row) (m : Meaning row) → IsRow row → Fits row m
        → length (writes row m) < 2 ^ 64 → reads row (writes row m) ≡ m }
{}

/// Bytes that spell fields one after another, each in whatever spelling, divide into these fields.
/// Of any bytes each part is spelled by its own bytes, and all of these, one after another, are the
/// bytes up to a rest that starts no field.
pub fn spelled_fields()
    ensures divide { (ps : List Part) → AllByRecursion (λ p. SpellsField p.raw p.field) ps
        → parts (flat_map (λ p. p.raw) ps) ≡ ps }
    ensures spelled { (bytes : List ℕ) → AreBytes bytes
        → AllByRecursion (λ p. SpellsField p.raw p.field) (parts bytes) }
    ensures rest { (bytes : List ℕ) → (rest : List ℕ) × StartsNoField rest
        × (bytes ≡ flat_map (λ p. p.raw) (parts bytes) ++ rest) }
{}

/// Of all the faults that bytes have, the one that is told has the least place; where none is told
/// there is none.
pub fn least_fault()
    ensures none { (row : Row) (place : ℕ) (bytes : List ℕ) (fault : DecodeFault) → IsRow row
        → row_fault row place bytes ≡ None → HasFault row place bytes fault → ⊥ }
    ensures has { (row : Row) (place : ℕ) (bytes : List ℕ) (fault : DecodeFault) → IsRow row
        → row_fault row place bytes ≡ Some fault → HasFault row place bytes fault }
    ensures least { (row : Row) (place : ℕ) (bytes : List ℕ) (fault other : DecodeFault)
        → IsRow row → row_fault row place bytes ≡ Some fault → HasFault row place bytes other
        → place_of fault ≤ place_of other }
{}
