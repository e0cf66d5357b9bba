//! Messages in words, and the walk over a table.

use super::*;

/// A message that is told in words.
pub(crate) trait Told: Message {
    /// Its fields in words.
    fn words(&self, alloc: Global) -> Result<String, Fail>;
}

/// Appends a word behind a blank.
fn put(out: &mut String, word: &str) -> Result<(), Fail> {
    if !out.is_empty() {
        out.push(' ')?;
    }
    out.push_str(word)?;
    Ok(())
}

/// Appends a number under its name, where it is not 0.
fn put_value(alloc: Global, out: &mut String, name: &str, value: i128) -> Result<(), Fail> {
    if value != 0 {
        put(out, &format!(in alloc; "{name}={value}")?)?;
    }
    Ok(())
}

/// Appends a text, where it is not empty.
fn put_name(alloc: Global, out: &mut String, name: &str, text: &Text) -> Result<(), Fail> {
    let text = text.as_str();
    if !text.is_empty() {
        put(out, &format!(in alloc; "{name}={text}")?)?;
    }
    Ok(())
}

fn put_rest(alloc: Global, out: &mut String, unknown: &Seq<u8>) -> Result<(), Fail> {
    let unknown = unknown.as_slice();
    if !unknown.is_empty() {
        let unknown = digits(alloc, unknown)?;
        put(out, &format!(in alloc; "unknown={unknown}")?)?;
    }
    Ok(())
}

impl Told for Stamp {
    fn words(&self, alloc: Global) -> Result<String, Fail> {
        let mut out = String::new(alloc);
        put_value(alloc, &mut out, "secs", i128::from(self.secs))?;
        put_value(alloc, &mut out, "nanos", i128::from(self.nanos))?;
        Ok(out)
    }
}

impl Told for UInt32Value {
    fn words(&self, alloc: Global) -> Result<String, Fail> {
        let mut out = String::new(alloc);
        put_value(alloc, &mut out, "value", i128::from(self.value))?;
        Ok(out)
    }
}

impl Told for Int32Value {
    fn words(&self, alloc: Global) -> Result<String, Fail> {
        let mut out = String::new(alloc);
        put_value(alloc, &mut out, "value", i128::from(self.value))?;
        Ok(out)
    }
}

impl Told for BoolValue {
    fn words(&self, alloc: Global) -> Result<String, Fail> {
        let mut out = String::new(alloc);
        put_value(alloc, &mut out, "value", i128::from(self.value))?;
        Ok(out)
    }
}

impl Told for Small {
    fn words(&self, alloc: Global) -> Result<String, Fail> {
        let mut out = String::new(alloc);
        put_value(alloc, &mut out, "number", i128::from(self.number))?;
        put_name(alloc, &mut out, "name", &self.name)?;
        put_rest(alloc, &mut out, &self.unknown)?;
        Ok(out)
    }
}

impl Told for Choice {
    fn words(&self, alloc: Global) -> Result<String, Fail> {
        let (name, words) = match &self.member {
            None => ("none", String::new(alloc)),
            Some(Member::Moment(moment)) => ("moment", moment.words(alloc)?),
            Some(Member::Small(small)) => ("small", small.words(alloc)?),
            Some(Member::Raw(bytes)) => ("raw", digits(alloc, bytes.as_slice())?),
        };
        let mut out = format!(in alloc; "{name}({words})")?;
        put_rest(alloc, &mut out, &self.unknown)?;
        Ok(out)
    }
}

impl Sample {
    fn put_singular(&self, alloc: Global, out: &mut String) -> Result<(), Fail> {
        put_value(alloc, out, "natural", i128::from(self.natural))?;
        put_value(alloc, out, "long", i128::from(self.long))?;
        put_value(alloc, out, "int", i128::from(self.int))?;
        put_value(alloc, out, "wide", i128::from(self.wide))?;
        put_value(alloc, out, "flag", i128::from(self.flag))?;
        put_name(alloc, out, "text", &self.text)
    }

    fn put_lists(&self, alloc: Global, out: &mut String) -> Result<(), Fail> {
        for n in self.naturals.as_slice() {
            put(out, &format!(in alloc; "naturals:{n}")?)?;
        }
        for n in self.ints.as_slice() {
            put(out, &format!(in alloc; "ints:{n}")?)?;
        }
        for b in self.flags.as_slice() {
            put(out, &format!(in alloc; "flags:{b}")?)?;
        }
        for text in self.texts.as_slice() {
            let text = text.as_str();
            put(out, &format!(in alloc; "texts:{text}")?)?;
        }
        Ok(())
    }

    fn put_messages(&self, alloc: Global, out: &mut String) -> Result<(), Fail> {
        if let Some(small) = &self.small {
            let words = small.words(alloc)?;
            put(out, &format!(in alloc; "small({words})")?)?;
        }
        for small in self.smalls.as_slice() {
            let words = small.words(alloc)?;
            put(out, &format!(in alloc; "smalls({words})")?)?;
        }
        if let Some(wrapped) = &self.wrapped {
            let words = wrapped.words(alloc)?;
            put(out, &format!(in alloc; "wrapped({words})")?)?;
        }
        Ok(())
    }
}

impl Told for Sample {
    fn words(&self, alloc: Global) -> Result<String, Fail> {
        let mut out = String::new(alloc);
        self.put_singular(alloc, &mut out)?;
        self.put_lists(alloc, &mut out)?;
        self.put_messages(alloc, &mut out)?;
        put_rest(alloc, &mut out, &self.unknown)?;
        Ok(out)
    }
}

fn fault_words(alloc: Global, fault: DecodeFault) -> Result<String, Fail> {
    let text = match fault {
        DecodeFault::Malformed { at } => format!(in alloc; "malformed {at}"),
        DecodeFault::BadUtf8 { at } => format!(in alloc; "bad utf8 {at}"),
        DecodeFault::NoMemory => String::from_str(alloc, "no memory"),
    };
    Ok(text?)
}

/// What the bytes read as.
pub(crate) fn read_words<M: Told>(alloc: Global, message: &[u8]) -> Result<String, Fail> {
    let words = match read::<M>(alloc, message) {
        Ok(message) => message.words(alloc)?,
        Err(fault) => return fault_words(alloc, fault),
    };
    if words.is_empty() {
        return Ok(String::from_str(alloc, "-")?);
    }
    Ok(words)
}

/// What is written of the message that these bytes read as, behind a byte that stays.
fn written<M: Message>(alloc: Global, message: &[u8]) -> Result<Vec<u8>, Fail> {
    let mut out = Vec::from_slice(alloc, &[0xff])?;
    if let Ok(message) = read::<M>(alloc, message) {
        write(&message, &mut out)?;
    }
    let rest = out.strip_prefix(&[0xff]).ok_or("no such front")?;
    Ok(rest.to_vec(alloc)?)
}

/// Walks a table: bytes, what they read as, and what is written of that.
pub(crate) fn all_rows<M: Told>(rt: &impl Abort, alloc: Global, table: &str) -> Result<(), Fail> {
    for row in rows(alloc, table)? {
        let message = bytes(alloc, row.cell(0))?;
        assert_eq!(rt;
            read_words::<M>(alloc, &message)?.as_str(),
            row.cell(1),
            "{row}"
        );
        assert_eq!(rt;
            written::<M>(alloc, &message)?,
            bytes(alloc, row.cell(2))?,
            "{row}"
        );
    }
    Ok(())
}
