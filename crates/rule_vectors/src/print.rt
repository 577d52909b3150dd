// Printing of what was found, one line a try.
use cltlb::{Atom, Operator, Part, Term, View};
use refusal::Refusal;
use std::io;

pub fn say(rt: &impl Print, text: &[u8]) -> io::Result<()> {
    rt.write_all(text)
}

pub fn say_number(rt: &impl Print, n: u64) -> io::Result<()> {
    print!(rt; " {n}")
}

fn say_signed(rt: &impl Print, z: i32) -> io::Result<()> {
    print!(rt; " {z}")
}

fn say_refusal(rt: &impl Print, refusal: Refusal) -> io::Result<()> {
    let report = refusal::report_of(refusal);
    say(rt, b"refused")?;
    say_number(rt, report.number as u64)?;
    say_number(rt, report.part as u64)?;
    say_number(rt, report.row as u64)
}

// "clear", or the refusal: of a put, and of the check of a sheet.
pub fn say_outcome<T: Drop>(rt: &impl Print, outcome: Result<T, Refusal>) -> io::Result<()> {
    match outcome {
        Ok(_) => say(rt, b"clear"),
        Err(refusal) => say_refusal(rt, refusal),
    }
}

fn say_term(rt: &impl Print, term: Term) -> io::Result<()> {
    match term {
        Term::Constant(z) => {
            say(rt, b" constant")?;
            say_signed(rt, z)
        }
        Term::Reading { channel, shift } => {
            say(rt, b" reading")?;
            say_number(rt, channel as u64)?;
            say_signed(rt, shift)
        }
    }
}

fn say_terms(rt: &impl Print, x: Term, y: Term) -> io::Result<()> {
    say_term(rt, x)?;
    say_term(rt, y)
}

fn say_window(rt: &impl Print, reading: Term, from: usize, to: usize) -> io::Result<()> {
    say_term(rt, reading)?;
    say_number(rt, from as u64)?;
    say_number(rt, to as u64)
}

fn say_atom(rt: &impl Print, atom: Atom) -> io::Result<()> {
    match atom {
        Atom::Less(x, y) => say_terms(rt, x, y),
        Atom::Equal(x, y) => say_terms(rt, x, y),
        Atom::Window {
            channel,
            shift,
            from,
            to,
        } => say_window(rt, Term::Reading { channel, shift }, from, to),
        Atom::Pinned { channel, shift } => say_term(rt, Term::Reading { channel, shift }),
    }
}

fn say_names(rt: &impl Print, operator: Operator) -> io::Result<()> {
    match operator {
        Operator::One(_, a) => say_number(rt, a as u64),
        Operator::Two(_, a, b) => {
            say_number(rt, a as u64)?;
            say_number(rt, b as u64)
        }
    }
}

fn say_view(rt: &impl Print, view: View) -> io::Result<()> {
    match view {
        View::Atom(atom) => say_atom(rt, atom),
        View::Operator(operator) => say_names(rt, operator),
    }
}

fn say_part(rt: &impl Print, part: Part) -> io::Result<()> {
    say(rt, b"kind")?;
    say_number(rt, rule::kinds::kind_of(part) as u64)?;
    say_view(rt, cltlb::view_of(part))
}

pub fn say_taken(rt: &impl Print, taken: Result<Part, Refusal>) -> io::Result<()> {
    match taken {
        Ok(part) => say_part(rt, part),
        Err(refusal) => say_refusal(rt, refusal),
    }
}
