//! Messages with a field of each kind.

use super::*;

/// A number and a text.
#[derive(Debug, Drop)]
pub(crate) struct Small {
    pub(crate) number: u32,
    pub(crate) name: Text,
    pub(crate) unknown: Seq<u8>,
}

impl Message for Small {
    ghost use Rattle.hb_schema.specs.Rows.{U32, Done, Number, Text};
    ghost use Rattle.std.specs.Prelude.{true};
    ghost use Rattle.std.proofs.Common.{rules};

    ghost shape = { Number 1 U32 (Text 2 (Done true)) };

    ghost view = { λ m. ((m.number, (m.name, tt)), m.unknown) };

    fn none(alloc: Global) -> Result<Small, NoMemory> {
        Ok(Small {
            number: 0,
            name: Text::empty(alloc),
            unknown: Seq::new(alloc)?,
        })
    }

    fn take(
        &mut self,
        alloc: Global,
        field: Field<'_>,
        raw: &[u8],
        end: usize,
    ) -> Result<(), DecodeFault> {
        match field {
            Field::Varint { number: 1, value } => {
                self.number = u32::of_varint(value);
                Ok(())
            }
            Field::Body { number: 2, body } => {
                set_text(alloc, &mut self.name, body, end - body.len())
            }
            _ => keep_unknown(&mut self.unknown, raw),
        }
    }

    fn put(&self, out: &mut Vec<u8>) -> Result<(), NoMemory> {
        put_number(out, 1, self.number)?;
        put_text(out, 2, &self.name)?;
        put_unknown(out, &self.unknown)
    }

    ghost is_row = { Prim.search rules };
}

/// One of a moment, a message, and bytes that are not looked into.
#[derive(Debug, Drop)]
pub(crate) enum Member {
    Moment(Stamp),
    Small(Small),
    Raw(Seq<u8>),
}

/// A oneof.
#[derive(Debug, Drop)]
pub(crate) struct Choice {
    pub(crate) member: Option<Member>,
    pub(crate) unknown: Seq<u8>,
}

impl Message for Choice {
    ghost use Rattle.hb_schema.specs.Rows.{U32, Row, Meaning, Done, Number, Text, Message, Raw};
    ghost use Rattle.hb_schema.specs.Table.{timestamp_row};
    ghost use Rattle.hb_schema.specs.Views.{stamp_view};
    ghost use Rattle.hb_schema.specs.declared.tests.sample.Member.{Member};
    ghost use Rattle.hb_schema.specs.declared.tests.sample.Member.TheVariants as member;
    ghost use Rattle.std.specs.Prelude.{true, Option, Some, None, ℕ, List, ◌∷◌, []};
    ghost use Rattle.std.proofs.Common.{rules};

    ghost shape = { Message 1 (2 ∷ 3 ∷ []) timestamp_row
        (Message 2 (1 ∷ 3 ∷ []) ⟦<Small as Message>⟧.shape
        (Raw 3 (1 ∷ 2 ∷ []) (Done true))) };

    ghost view = { λ m.
        let moment : Option Member → Option (Meaning timestamp_row) = λ held. elim held [
          | None ↦ None
          | Some one ↦ elim one [
            | member.Moment s ↦ Some (stamp_view s)
            | member.Small s ↦ None
            | member.Raw b ↦ None
          ]
        ] in
        let small : Option Member → Option (Meaning ⟦<Small as Message>⟧.shape) = λ held. elim held [
          | None ↦ None
          | Some one ↦ elim one [
            | member.Moment s ↦ None
            | member.Small s ↦ Some (⟦<Small as Message>⟧.view s)
            | member.Raw b ↦ None
          ]
        ] in
        let raw : Option Member → Option (List ℕ) = λ held. elim held [
          | None ↦ None
          | Some one ↦ elim one [
            | member.Moment s ↦ None
            | member.Small s ↦ None
            | member.Raw b ↦ Some b
          ]
        ] in
        ((moment m.member, (small m.member, (raw m.member, tt))), m.unknown) };

    fn none(alloc: Global) -> Result<Choice, NoMemory> {
        Ok(Choice {
            member: None,
            unknown: Seq::new(alloc)?,
        })
    }

    fn take(
        &mut self,
        alloc: Global,
        field: Field<'_>,
        raw: &[u8],
        end: usize,
    ) -> Result<(), DecodeFault> {
        let held = &mut self.member;
        match field {
            Field::Body { number: 1, body } => match held {
                Some(Member::Moment(moment)) => merge(alloc, moment, body, end - body.len()),
                _ => match fresh(alloc, body, end - body.len()) {
                    Ok(moment) => {
                        *held = Some(Member::Moment(moment));
                        Ok(())
                    }
                    Err(fault) => Err(fault),
                },
            },
            Field::Body { number: 2, body } => match held {
                Some(Member::Small(small)) => merge(alloc, small, body, end - body.len()),
                _ => match fresh(alloc, body, end - body.len()) {
                    Ok(small) => {
                        *held = Some(Member::Small(small));
                        Ok(())
                    }
                    Err(fault) => Err(fault),
                },
            },
            Field::Body { number: 3, body } => match held {
                Some(Member::Raw(bytes)) => keep_unknown(bytes, body),
                _ => match bytes_of(alloc, body) {
                    Ok(bytes) => {
                        *held = Some(Member::Raw(bytes));
                        Ok(())
                    }
                    Err(fault) => Err(fault),
                },
            },
            _ => keep_unknown(&mut self.unknown, raw),
        }
    }

    fn put(&self, out: &mut Vec<u8>) -> Result<(), NoMemory> {
        match &self.member {
            None => {}
            Some(Member::Moment(moment)) => put_message(out, 1, moment)?,
            Some(Member::Small(small)) => put_message(out, 2, small)?,
            Some(Member::Raw(bytes)) => put_bytes(out, 3, bytes)?,
        }
        put_unknown(out, &self.unknown)
    }

    ghost is_row = { Prim.search rules };
}

/// A field of each kind.
#[derive(Debug, Drop)]
pub(crate) struct Sample {
    pub(crate) natural: u32,
    pub(crate) long: u64,
    pub(crate) int: i32,
    pub(crate) wide: i64,
    pub(crate) flag: bool,
    pub(crate) naturals: Seq<u32>,
    pub(crate) ints: Seq<i32>,
    pub(crate) flags: Seq<bool>,
    pub(crate) text: Text,
    pub(crate) texts: Seq<Text>,
    pub(crate) small: Option<Small>,
    pub(crate) smalls: Seq<Small>,
    pub(crate) wrapped: Option<BoolValue>,
    pub(crate) unknown: Seq<u8>,
}

impl Message for Sample {
    ghost use Rattle.hb_schema.specs.Rows.{U32, U64, I32, I64, Flag, Row, Meaning, Done, Number, Numbers, Text, Texts, Message, Messages};
    ghost use Rattle.hb_schema.specs.Table.{bool_value_row};
    ghost use Rattle.hb_schema.specs.Views.{bool_value_view};
    ghost use Rattle.hb_schema.specs.declared.tests.sample.Small.{Small};
    ghost use Rattle.std.specs.Prelude.{true, map, []};
    ghost use Rattle.std.specs.Option.{option_map};
    ghost use Rattle.std.proofs.Common.{rules};

    ghost shape = { Number 1 U32 (Number 2 U64 (Number 3 I32 (Number 4 I64 (Number 5 Flag
        (Numbers 6 U32 (Numbers 7 I32 (Numbers 8 Flag (Text 9 (Texts 10
        (Message 11 [] ⟦<Small as Message>⟧.shape
        (Messages 12 ⟦<Small as Message>⟧.shape
        (Message 13 [] bool_value_row (Done true))))))))))))) };

    ghost view = { λ m. (
      (
        m.natural,
        (
          m.long,
          (
            m.int,
            (
              m.wide,
              (
                m.flag,
                (
                  m.naturals,
                  (
                    m.ints,
                    (
                      m.flags,
                      (
                        m.text,
                        (
                          m.texts,
                          (
                            option_map ⟦<Small as Message>⟧.view m.small,
                            (
                              map ⟦<Small as Message>⟧.view m.smalls,
                              (option_map bool_value_view m.wrapped, tt),
                            ),
                          ),
                        ),
                      ),
                    ),
                  ),
                ),
              ),
            ),
          ),
        ),
      ),
      m.unknown,
    ) };

    fn none(alloc: Global) -> Result<Sample, NoMemory> {
        Ok(Sample {
            natural: 0,
            long: 0,
            int: 0,
            wide: 0,
            flag: false,
            naturals: Seq::new(alloc)?,
            ints: Seq::new(alloc)?,
            flags: Seq::new(alloc)?,
            text: Text::empty(alloc),
            texts: Seq::new(alloc)?,
            small: None,
            smalls: Seq::new(alloc)?,
            wrapped: None,
            unknown: Seq::new(alloc)?,
        })
    }

    fn take(
        &mut self,
        alloc: Global,
        field: Field<'_>,
        raw: &[u8],
        end: usize,
    ) -> Result<(), DecodeFault> {
        match field {
            Field::Varint { number: 1, value } => self.natural = u32::of_varint(value),
            Field::Varint { number: 2, value } => self.long = u64::of_varint(value),
            Field::Varint { number: 3, value } => self.int = i32::of_varint(value),
            Field::Varint { number: 4, value } => self.wide = i64::of_varint(value),
            Field::Varint { number: 5, value } => self.flag = bool::of_varint(value),
            Field::Varint { number: 6, value } => return push_number(&mut self.naturals, value),
            Field::Varint { number: 7, value } => return push_number(&mut self.ints, value),
            Field::Varint { number: 8, value } => return push_number(&mut self.flags, value),
            Field::Body { number, body } => {
                let place = end - body.len();
                return match number {
                    6 => push_packed(&mut self.naturals, body, place),
                    7 => push_packed(&mut self.ints, body, place),
                    8 => push_packed(&mut self.flags, body, place),
                    9 => set_text(alloc, &mut self.text, body, place),
                    10 => push_text(alloc, &mut self.texts, body, place),
                    11 => merge_into(alloc, &mut self.small, body, place),
                    12 => push_message(alloc, &mut self.smalls, body, place),
                    13 => merge_into(alloc, &mut self.wrapped, body, place),
                    _ => keep_unknown(&mut self.unknown, raw),
                };
            }
            _ => return keep_unknown(&mut self.unknown, raw),
        }
        Ok(())
    }

    fn put(&self, out: &mut Vec<u8>) -> Result<(), NoMemory> {
        put_number(out, 1, self.natural)?;
        put_number(out, 2, self.long)?;
        put_number(out, 3, self.int)?;
        put_number(out, 4, self.wide)?;
        put_number(out, 5, self.flag)?;
        put_numbers(out, 6, &self.naturals)?;
        put_numbers(out, 7, &self.ints)?;
        put_numbers(out, 8, &self.flags)?;
        put_text(out, 9, &self.text)?;
        put_texts(out, 10, &self.texts)?;
        put_optional(out, 11, &self.small)?;
        put_messages(out, 12, &self.smalls)?;
        put_optional(out, 13, &self.wrapped)?;
        put_unknown(out, &self.unknown)
    }

    ghost is_row = { Prim.search rules };
}
