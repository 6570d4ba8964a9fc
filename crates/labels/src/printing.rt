//! A label's text, written.

ghost use Rattle.std.specs.Prelude.{◌≡◌, ◌+◌, ◌<◌, ◌≤◌, ◌++◌, ◌∷◌, [], ◌==◌, ◌||◌, length};
ghost use Rattle.std.specs.Int.{bit_at};
ghost use Rattle.std.specs.Fmt.{decimal};
ghost use Rattle.labels.specs.Spelling.{listed, joined, half_text};
ghost use Rattle.labels.specs.Printing.{addition};

use arrayvec::ArrayString;

/// Writes the number at the end.
#[tactic(auto, using(crate::proofs::Printed::decimals))]
fn push_number(out: &mut ArrayString<256>, n: u8)
    requires small { n < 100 }
    requires room { length out.old.bytes + 2 ≤ 256 }
    ensures bytes { out.new.bytes ≡ out.old.bytes ++ decimal n }
    ensures len { length out.new.bytes ≤ length out.old.bytes + 2 }
{
    if n < 10 {
        out.push((b'0' + n) as char);
        return;
    }
    out.push((b'0' + n / 10) as char);
    out.push((b'0' + n % 10) as char);
}

/// Writes the category, if the word has it, with a comma in front if it isn't the first. Says whether any was
/// written by then.
fn push_category(out: &mut ArrayString<256>, word: u32, category: u8, any: bool) -> bool
    requires category { category < 32 }
    requires room { length out.old.bytes + 3 ≤ 256 }
    ensures bytes { out.new.bytes ≡ out.old.bytes ++ addition any (bit_at word category == 1) category }
    ensures len { length out.new.bytes ≤ length out.old.bytes + 3 }
    ensures any { result ≡ (any || (bit_at word category == 1)) }
{
    if word / (1 << category) % 2 != 1 {
        return any;
    }
    if any {
        out.push(',');
    }
    push_number(out, category);
    true
}

/// Writes the categories of the word, in rising order with commas between.
#[tactic(auto, using(crate::proofs::Printed::lists))]
fn push_categories(out: &mut ArrayString<256>, word: u32)
    requires { length out.old.bytes + 96 ≤ 256 }
    ensures bytes { out.new.bytes ≡ out.old.bytes ++ joined (listed 32 word) }
    ensures len { length out.new.bytes ≤ length out.old.bytes + 96 }
{
    let mut any = false;
    for category in 0..32u8 {
        any = push_category(out, word, category, any);
    }
}

/// Writes `L{cats}` at the end.
pub fn push_half(out: &mut ArrayString<256>, level: u8, cats: u32)
    requires level { level ≤ 15 }
    requires room { length out.old.bytes + 100 ≤ 256 }
    ensures bytes { out.new.bytes ≡ out.old.bytes ++ half_text level cats }
    ensures len { length out.new.bytes ≤ length out.old.bytes + 100 }
{
    push_number(out, level);
    out.push('{');
    push_categories(out, cats);
    out.push('}');
}
