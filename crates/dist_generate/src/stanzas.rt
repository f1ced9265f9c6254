//! The stanzas of an archive, each written as it is drawn.
ghost use Rattle.std.specs.Prelude.{◌≡◌, ◌++◌, ◌∷◌, [], ◌<◌, ◌≤◌, codes, decimal, IfOk, None, OnOk};
ghost use Rattle.std.specs.List.{join_by};
ghost use Rattle.dist_base.specs.declared.TheConstants.{MAX_SIZE};
ghost use Rattle.dist_generate.specs.Draws.{many};
ghost use Rattle.dist_generate.specs.Generator.{alternative, item, items, conflict, drawn, generated};
ghost use Rattle.dist_generate.specs.Generator.{drawn_bound, alternative_text, item_text, depends_lines, conflicts_lines, stanza_head, stanza_text, text_of_lines};
ghost use Rattle.dist_generate.specs.StepsPrivate.{Adds};

use crate::draws::Draws;
use itoa::Buffer;
use std::alloc::{AllocError, Global};

/// Adds bytes and a number behind them.
fn add_number(text: &mut Vec<u8>, before: &[u8], number: u32) -> Result<(), AllocError>
    ensures { OnOk result (text.new.items ≡ text.old.items ++ (before.now ++ decimal number)) }
{
    text.extend_from_slice(before)?;
    let mut digits = Buffer::new();
    text.extend_from_slice(digits.format(number).as_bytes())?;
    Ok(())
}

/// Adds a line of bytes and a number.
fn add_line(text: &mut Vec<u8>, before: &[u8], number: u32) -> Result<(), AllocError>
    ensures { OnOk result (text.new.items ≡ text.old.items ++ text_of_lines ((before.now ++ decimal number) ∷ [])) }
{
    add_number(text, before, number)?;
    text.push(b'\n')?;
    Ok(())
}

/// Adds the lines that each stanza has.
fn add_head(text: &mut Vec<u8>, number: u32, digit: u32) -> Result<(), AllocError>
    ensures { OnOk result (text.new.items ≡ text.old.items
        ++ text_of_lines (stanza_head (record { number = number; digit = digit; items = []; conflict = None }))) }
{
    add_line(text, b"Package: g", number)?;
    add_line(text, b"Version: 1.", digit)?;
    text.extend_from_slice(b"Architecture: all\n")?;
    add_line(text, b"Source: s", number / 2)?;
    Ok(())
}

/// The bound of an alternative.
fn bound_bytes(bound: u32) -> &'static [u8]
    ensures { result.now ≡ drawn_bound bound }
{
    match bound {
        2 => b" (>= 1)",
        3 => b" (<< 2)",
        _ => b"",
    }
}

/// Draws an alternative of the package of a number, and adds it.
fn add_alternative(text: &mut Vec<u8>, draws: &mut Draws, number: u32) -> Result<(), AllocError>
    requires { 0 < number }
    ensures { OnOk result (Adds (alternative number) alternative_text text.old.items draws.old.state text.new.items draws.new.state) }
{
    let target = draws.draw(number);
    let bound = draws.draw(4);
    add_number(text, b"g", target)?;
    text.extend_from_slice(bound_bytes(bound))?;
    Ok(())
}

/// Draws an item, and adds it.
fn add_item(text: &mut Vec<u8>, draws: &mut Draws, number: u32) -> Result<(), AllocError>
    requires { 0 < number }
    ensures { OnOk result (Adds (item number) item_text text.old.items draws.old.state text.new.items draws.new.state) }
{
    let alternatives = 1 + draws.draw(2);
    for place in 0..alternatives {
        if place > 0 {
            text.extend_from_slice(b" | ")?;
        }
        add_alternative(text, draws, number)?;
    }
    Ok(())
}

/// Draws so many items, and adds them.
fn add_items(
    text: &mut Vec<u8>,
    draws: &mut Draws,
    number: u32,
    count: u32,
) -> Result<(), AllocError>
    requires { 0 < number }
    ensures { OnOk result (Adds (many (λ _. item number) count) (join_by item_text (codes ", ")) text.old.items draws.old.state text.new.items draws.new.state) }
{
    for place in 0..count {
        if place > 0 {
            text.extend_from_slice(b", ")?;
        }
        add_item(text, draws, number)?;
    }
    Ok(())
}

/// Draws what a package depends on, and adds the line of it where it is something.
fn add_depends(text: &mut Vec<u8>, draws: &mut Draws, number: u32) -> Result<(), AllocError>
    requires { 0 < number }
    ensures { OnOk result (Adds (items number) (λ items. text_of_lines (depends_lines items)) text.old.items draws.old.state text.new.items draws.new.state) }
{
    let count = draws.draw(3);
    if count > 0 {
        text.extend_from_slice(b"Depends: ")?;
        add_items(text, draws, number, count)?;
        text.push(b'\n')?;
    }
    Ok(())
}

/// Draws what a package conflicts with, and adds the line of it where it is something.
fn add_conflict(text: &mut Vec<u8>, draws: &mut Draws, number: u32) -> Result<(), AllocError>
    requires { 0 < number }
    ensures { OnOk result (Adds (conflict number) (λ other. text_of_lines (conflicts_lines other)) text.old.items draws.old.state text.new.items draws.new.state) }
{
    if draws.draw(8) == 0 {
        let other = draws.draw(number);
        add_line(text, b"Conflicts: g", other)?;
    }
    Ok(())
}

/// Draws the package of a number, and adds its stanza.
fn add_stanza(text: &mut Vec<u8>, draws: &mut Draws, number: u32) -> Result<(), AllocError>
    ensures { OnOk result (Adds (drawn number) stanza_text text.old.items draws.old.state text.new.items draws.new.state) }
{
    let digit = draws.draw(3);
    add_head(text, number, digit)?;
    if number > 0 {
        add_depends(text, draws, number)?;
        add_conflict(text, draws, number)?;
    }
    text.push(b'\n')?;
    Ok(())
}

/// The archive of a size and a seed.
pub fn generate(alloc: Global, size: u32, seed: u32) -> Result<Vec<u8>, AllocError>
    requires some { 1 ≤ size }
    requires few { size ≤ MAX_SIZE }
    ensures { IfOk result (λ text. text.items ≡ generated size seed) }
{
    let mut text = Vec::new(alloc);
    let mut draws = Draws { state: seed };
    for number in 0..size {
        add_stanza(&mut text, &mut draws, number)?;
    }
    Ok(text)
}
