//! A report, and the lines that are written behind what it has.

ghost use Rattle.std.specs.Prelude.{◌≡◌, IfSome, List, OnOk, [], ℕ};
ghost use Rattle.job.specs.Lines.{Adds, Wrote, escape, escaped, indent, indented, label_line, mark, marks, members_line, quoted, span_line, spans_line, string_line, value_line, value_text};
ghost use Rattle.reader.specs.Fields.{members_of, text_of};
ghost use Rattle.reader.specs.Meanings.{plain_of};

use meaning::tree::Span;
use reader::field::{Members, PackedText};
use reader::literal::PlainValue;
use reader::text::text_under;
use std::alloc::{AllocError, Global};
use std::fmt::Display;
use std::io::Write;
use std::marker::Model;

/// A report, as far as it is written.
#[derive(Drop)]
pub struct Report {
    bytes: Vec<u8>,
}

impl Model for Report {
    ghost Value = { List ℕ };

    ghost view = { λ report. report.bytes.items };
}

/// What is written goes on behind the bytes.
impl From<Vec<u8>> for Report {
    ghost from_gives = { λ bytes report. report ≡ bytes.items };

    fn from(bytes: Vec<u8>) -> Report {
        Report { bytes }
    }
}

impl Report {
    /// A report of nothing yet.
    pub fn new(heap: Global) -> Report
        ensures { result ≡ [] }
    {
        Report {
            bytes: Vec::new(heap),
        }
    }

    /// What is written.
    pub fn as_bytes(&self) -> &[u8]
        ensures { result.now ≡ self.now }
    {
        self.bytes.as_slice()
    }

    /// The bytes that are written.
    pub fn into_bytes(self) -> Vec<u8>
        ensures { result.items ≡ self }
    {
        let Report { bytes: written } = self;
        written
    }

    /// Forgets what is written.
    pub fn clear(&mut self)
        ensures { self.new ≡ [] }
    {
        self.bytes.clear();
    }

    /// The memory that the report is written to.
    pub(crate) fn heap(&self) -> Global {
        *self.bytes.allocator()
    }

    /// Bytes as they are.
    pub(crate) fn put(&mut self, text: &[u8]) -> Result<(), AllocError>
        ensures { Wrote text.now result self.old self.new }
    {
        self.bytes.extend_from_slice(text)
    }

    /// What `write!` and `writeln!` call: a value as it prints.
    pub(crate) fn write_fmt<D: Display + Drop>(&mut self, text: D) -> Result<(), AllocError>
        ensures { OnOk result (IfSome (D.output text) (λ bytes. Adds bytes self.old self.new)) }
    {
        self.bytes.write_fmt(text).map_err(|_error| AllocError)
    }

    /// One byte of a text in double quotes.
    fn put_escaped(&mut self, byte: u8) -> Result<(), AllocError>
        ensures { Wrote (escape byte) result self.old self.new }
    {
        match byte {
            b'"' => self.put(b"\\\""),
            b'\\' => self.put(b"\\\\"),
            b'\n' => self.put(b"\\n"),
            b'\t' => self.put(b"\\t"),
            _ => self.put(&[byte]),
        }
    }

    /// A text as in double quotes, without them.
    pub(crate) fn put_text(&mut self, text: &[u8]) -> Result<(), AllocError>
        ensures { Wrote (escaped text.now) result self.old self.new }
    {
        for byte in text {
            self.put_escaped(*byte)?;
        }
        Ok(())
    }

    /// A text in double quotes.
    pub(crate) fn put_quoted(&mut self, text: &[u8]) -> Result<(), AllocError>
        ensures { Wrote (quoted text.now) result self.old self.new }
    {
        self.put(b"\"")?;
        self.put_text(text)?;
        self.put(b"\"")
    }

    /// Two spaces for each level.
    pub(crate) fn put_indent(&mut self, depth: usize) -> Result<(), AllocError>
        ensures { Wrote (indent depth) result self.old self.new }
    {
        for _level in 0..depth {
            self.put(b"  ")?;
        }
        Ok(())
    }

    /// A span, and the source under it.
    fn put_mark(&mut self, source: &[u8], span: Span) -> Result<(), AllocError>
        ensures { Wrote (mark source.now span) result self.old self.new }
    {
        let Span { start, end } = span;
        write!(self, " {start}-{end} ")?;
        self.put_quoted(text_under(source, span))
    }

    /// The spans of a variable's members.
    fn put_members(&mut self, source: &[u8], members: Members) -> Result<(), AllocError>
        ensures { Wrote (marks source.now (members_of members.entry)) result self.old self.new }
    {
        for member in members {
            self.put_mark(source, member.span)?;
        }
        Ok(())
    }

    /// The beginning of a line: its indentation and a label.
    fn put_label(&mut self, depth: usize, label: &[u8]) -> Result<(), AllocError>
        ensures { Wrote (indented depth label.now) result self.old self.new }
    {
        self.put_indent(depth)?;
        self.put(label)
    }

    /// A line of a label alone.
    pub(crate) fn put_label_line(&mut self, depth: usize, label: &[u8]) -> Result<(), AllocError>
        ensures { Wrote (label_line depth label.now) result self.old self.new }
    {
        self.put_label(depth, label)?;
        self.put(b"\n")
    }

    /// A line of a label and a span. Depth and label are the line's own, so that no struct holds them.
    pub(crate) fn put_span_line(
        &mut self,
        source: &[u8],
        depth: usize,
        label: &[u8],
        span: Span,
    ) -> Result<(), AllocError>
        ensures { Wrote (span_line source.now depth label.now span) result self.old self.new }
    {
        self.put_label(depth, label)?;
        self.put_mark(source, span)?;
        self.put(b"\n")
    }

    /// A line of a label and two spans.
    pub(crate) fn put_spans_line(
        &mut self,
        source: &[u8],
        depth: usize,
        label: &[u8],
        first: Span,
        second: Span,
    ) -> Result<(), AllocError>
        ensures { Wrote (spans_line source.now depth label.now first second) result self.old self.new }
    {
        self.put_label(depth, label)?;
        self.put_mark(source, first)?;
        self.put_mark(source, second)?;
        self.put(b"\n")
    }

    /// A line of a label and a string of the tree, with its own text and the source under its span.
    pub(crate) fn put_string_line(
        &mut self,
        source: &[u8],
        depth: usize,
        label: &[u8],
        string: PackedText,
    ) -> Result<(), AllocError>
        ensures { Wrote (string_line source.now depth label.now (text_of string.entry)) result self.old self.new }
    {
        self.put_label(depth, label)?;
        self.put(b" ")?;
        self.put_quoted(string.text)?;
        self.put_mark(source, string.span)?;
        self.put(b"\n")
    }

    /// A line of a variable, with the spans of its members.
    pub(crate) fn put_members_line(
        &mut self,
        source: &[u8],
        depth: usize,
        members: Members,
    ) -> Result<(), AllocError>
        ensures { Wrote (members_line source.now depth (members_of members.entry)) result self.old self.new }
    {
        self.put_label(depth, b"variable")?;
        self.put_members(source, members)?;
        self.put(b"\n")
    }

    /// A literal's value.
    pub(crate) fn put_value(&mut self, value: PlainValue) -> Result<(), AllocError>
        ensures { Wrote (value_text (plain_of value.entry)) result self.old self.new }
    {
        match value {
            PlainValue::Nothing => self.put(b"none"),
            PlainValue::False => self.put(b"false"),
            PlainValue::True => self.put(b"true"),
            PlainValue::Integer(number) => write!(self, "integer {number}"),
            PlainValue::Float(bits) => write!(self, "float of bits {bits}"),
            PlainValue::String(bytes) => {
                self.put(b"string ")?;
                self.put_quoted(bytes)
            }
        }
    }

    /// A line of a literal's value.
    pub(crate) fn put_value_line(
        &mut self,
        depth: usize,
        value: PlainValue,
    ) -> Result<(), AllocError>
        ensures { Wrote (value_line depth (plain_of value.entry)) result self.old self.new }
    {
        self.put_label(depth, b"value ")?;
        self.put_value(value)?;
        self.put(b"\n")
    }
}
