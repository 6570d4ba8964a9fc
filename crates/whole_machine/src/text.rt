//! Lines of numbers.

ghost use Rattle.std.specs.Prelude.{◌≡◌, ◌++◌, ◌∷◌, [], OnOk, codes, string_bytes};
ghost use Rattle.std.specs.Fmt.{decimal};
ghost use Rattle.std.specs.List.{flat_map};
ghost use Rattle.class_model.specs.Report.{line_of};
ghost use Rattle.whole_machine.specs.Texts.{numbers_text};

use std::alloc::{AllocError, Global};

/// Writes a number in decimal digits.
fn push_number(alloc: Global, out: &mut String, n: u64) -> Result<(), AllocError>
    ensures { OnOk result (string_bytes out.new ≡ string_bytes out.old ++ decimal n) }
{
    let digits = format!(in alloc; "{n}")?;
    out.push_str(digits.as_str())
}

/// Writes a text and a number behind it.
#[tactic(auto, using(crate::proofs::Pieces::pieces))]
pub(crate) fn push_named(
    alloc: Global,
    out: &mut String,
    name: &str,
    n: u64,
) -> Result<(), AllocError>
    ensures { OnOk result (string_bytes out.new ≡ string_bytes out.old ++ name.now ++ decimal n) }
{
    out.push_str(name)?;
    push_number(alloc, out, n)?;
    Ok(())
}

/// Writes numbers, each behind a blank.
pub(crate) fn push_numbers(
    alloc: Global,
    out: &mut String,
    numbers: &[u64],
) -> Result<(), AllocError>
    ensures { OnOk result (string_bytes out.new ≡ string_bytes out.old ++ numbers_text numbers.now) }
{
    for number in numbers {
        push_named(alloc, out, " ", *number)?;
    }
    Ok(())
}

/// Writes the line of a class.
#[tactic(auto, using(crate::proofs::Pieces::pieces))]
pub(crate) fn push_class_line(
    alloc: Global,
    out: &mut String,
    class: u8,
    name: &str,
) -> Result<(), AllocError>
    ensures { OnOk result (string_bytes out.new ≡ string_bytes out.old ++ line_of (codes "class" ∷ decimal class ∷ name.now ∷ [])) }
{
    push_named(alloc, out, "class ", u64::from(class))?;
    out.push_str(" ")?;
    out.push_str(name)?;
    out.push_str("\n")?;
    Ok(())
}

/// Writes a console line.
#[tactic(auto, using(crate::proofs::Pieces::pieces))]
fn push_line(alloc: Global, out: &mut String, value: u64) -> Result<(), AllocError>
    ensures { OnOk result (string_bytes out.new ≡ string_bytes out.old ++ line_of (codes "line" ∷ decimal value ∷ [])) }
{
    push_named(alloc, out, "line ", value)?;
    out.push_str("\n")?;
    Ok(())
}

/// Writes the console lines.
pub(crate) fn push_lines(alloc: Global, out: &mut String, lines: &[u64]) -> Result<(), AllocError>
    ensures { OnOk result (string_bytes out.new ≡ string_bytes out.old ++ flat_map (λ v. line_of (codes "line" ∷ decimal v ∷ [])) lines.now) }
{
    for line in lines {
        push_line(alloc, out, *line)?;
    }
    Ok(())
}
