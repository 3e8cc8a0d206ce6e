//! The text of a chain.
ghost use Rattle.std.specs.Prelude.{◌≡◌, ◌<◌, ◌≤◌, ◌^◌, length, IfOk, OnOk};
ghost use Rattle.ps_make.specs.declared.made.TheConstants.{MOST_LINKS};
ghost use Rattle.ps_make.specs.Chain.{link, asked_of, made_text};
ghost use Rattle.ps_make.specs.Lines.{Adds, atom_name, arrow_text, line_of};

use ps_io::NoMemory;
use std::alloc::Global;

/// The most links of a chain: with so many its sentences and atoms are within the limits of a
/// problem, and the least probability of its last atom is 0.
pub const MOST_LINKS: u32 = 90;

/// The limit by its number.
pub fn limits_have_these_numbers()
    ensures { MOST_LINKS ≡ 90 }
{}

// Writes bytes.
fn append(out: &mut Vec<u8>, bytes: &[u8]) -> Result<(), NoMemory>
    ensures { OnOk result (Adds out.old.items out.new.items bytes.now) }
{
    out.extend_from_slice(bytes)?;
    Ok(())
}

// Writes the name of an atom.
fn name(out: &mut Vec<u8>, atom: u32) -> Result<(), NoMemory>
    ensures { OnOk result (Adds out.old.items out.new.items (atom_name atom)) }
{
    append(out, b"x")?;
    let mut digits = itoa::Buffer::new();
    append(out, digits.format(atom).as_bytes())
}

// Writes that an atom implies another.
fn implication(out: &mut Vec<u8>, from: u32, to: u32) -> Result<(), NoMemory>
    ensures { OnOk result (Adds out.old.items out.new.items (arrow_text from to)) }
{
    name(out, from)?;
    append(out, b" -> ")?;
    name(out, to)
}

// Writes the line that says that an atom almost surely implies the next.
fn write_link(out: &mut Vec<u8>, atom: u32) -> Result<(), NoMemory>
    requires { atom < MOST_LINKS }
    ensures { OnOk result (Adds out.old.items out.new.items (line_of (link atom))) }
{
    append(out, b"P(")?;
    implication(out, atom, atom + 1)?;
    append(out, b") >= 99/100;\n")
}

// Writes the line that asks how probable an atom is.
fn write_query(out: &mut Vec<u8>, atom: u32) -> Result<(), NoMemory>
    ensures { OnOk result (Adds out.old.items out.new.items (line_of (asked_of atom))) }
{
    append(out, b"query P(")?;
    name(out, atom)?;
    append(out, b");\n")
}

/// The canonical text of a chain with so many links: `P(x0)` is at least 9/10, each atom implies
/// the next with a probability of at least 99/100, and the query is for the last atom. Its
/// probability is at least (90 - links) / 100, since each implication fails with at most 1/100. The
/// text has less than 2^20 bytes.
pub fn make_text(alloc: Global, links: u32) -> Result<Vec<u8>, NoMemory>
    requires { links ≤ MOST_LINKS }
    ensures text { IfOk result (λ v. v.items ≡ made_text links) }
    ensures few { IfOk result (λ v. length v.items < 2 ^ 20) }
{
    let mut out = Vec::new(alloc);
    append(&mut out, b"psat 1;\nP(x0) >= 9/10;\n")?;
    for atom in 0..links {
        write_link(&mut out, atom)?;
    }
    write_query(&mut out, links)?;
    append(&mut out, b"end;\n")?;
    Ok(out)
}
