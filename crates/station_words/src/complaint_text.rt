//! The line of a complaint.

use crate::complaint::Complaint;
use std::fmt;
use std::fmt::{Display, Formatter, Write};

/// A word as it stands in a line: what would break the line or change the terminal is escaped, and an empty one is `''`.
#[derive(Drop)]
pub struct Shown<'a>(pub &'a str);

impl Display for Shown<'_> {
    fn fmt<W: Write>(&self, f: &mut Formatter<W>) -> fmt::Result {
        if self.0.is_empty() {
            return f.write_str("''");
        }
        for c in self.0.chars() {
            if c.is_control() {
                write!(f, "{}", c.escape_default())?;
            } else {
                f.write_char(c)?;
            }
        }
        Ok(())
    }
}

// Words with single spaces between them.
#[derive(Drop)]
struct Joined<'a>(&'a [String]);

impl Display for Joined<'_> {
    fn fmt<W: Write>(&self, f: &mut Formatter<W>) -> fmt::Result {
        let mut is_first = true;
        for word in self.0 {
            if !is_first {
                f.write_str(" ")?;
            }
            is_first = false;
            write!(f, "{}", Shown(word.as_str()))?;
        }
        Ok(())
    }
}

// So many ports from one on: `11019`, or `11019-11026`.
#[derive(Drop)]
struct Ports(u32, u32);

impl Display for Ports {
    fn fmt<W: Write>(&self, f: &mut Formatter<W>) -> fmt::Result {
        write!(f, "{}", self.0)?;
        if self.1 > 1 {
            write!(f, "-{}", self.0.saturating_add(self.1 - 1))?;
        }
        Ok(())
    }
}

impl Display for Complaint<'_> {
    fn fmt<W: Write>(&self, f: &mut Formatter<W>) -> fmt::Result {
        match *self {
            Complaint::NoWords => f.write_str("no command (see bmpstation --help)"),
            Complaint::NoCommand(word) => {
                write!(f, "{}: no command (see bmpstation --help)", Shown(word))
            }
            Complaint::NoQuery { asked, good } => {
                let (head, rest) = asked.split_at(good.min(asked.len()));
                if head.is_empty() {
                    write!(f, "{}: no query (see bmpstation-query(7))", Joined(rest))
                } else {
                    write!(
                        f,
                        "{}: not understood after `{}` (see bmpstation-query(7))",
                        Joined(rest),
                        Joined(head)
                    )
                }
            }
            Complaint::Quit => f.write_str("quit: asks for nothing"),
            Complaint::Needs { command, needs } => write!(f, "{command}: {needs} must follow"),
            Complaint::Extra { command, word } => {
                write!(f, "{}: nothing may follow `{command}` here", Shown(word))
            }
            Complaint::NotA { word, wanted } => write!(
                f,
                "{}: {wanted} must stand here",
                Shown(word)
            ),
            Complaint::NoOption(word) => {
                write!(
                    f,
                    "{}: no option of serve (see bmpstation --help)",
                    Shown(word)
                )
            }
            Complaint::NoValue(option) => {
                write!(f, "{}: {} must follow", option.name(), option.wanted())
            }
            Complaint::Twice(option) => write!(f, "{}: given twice", option.name()),
            Complaint::HasValue(word) => write!(f, "{}: takes no value", Shown(word)),
            Complaint::BadValue { option, value } => {
                write!(f, "{} {}: {}", option.name(), Shown(value), option.wanted())
            }
            Complaint::PastEnd {
                option,
                first,
                count,
            } => write!(
                f,
                "{} {first}: the ports {} go past 65535",
                option.name(),
                Ports(first, count)
            ),
            Complaint::Meet {
                feed,
                feeds,
                ask,
                askers,
            } => write!(
                f,
                "the ports {} and {} meet",
                Ports(feed, feeds),
                Ports(ask, askers)
            ),
        }
    }
}
