// Words, the blanks between them, and words that are numbers.
ghost use Rattle.std.specs.Prelude.{◌≡◌, ◌≤◌, length, not};
ghost use Rattle.std.specs.List.{prefix_len};
ghost use Rattle.line_parts.specs.Blanks.{behind_word, first_word, is_blank, past_blanks};
ghost use Rattle.line_parts.specs.Numbers.{more_digit, read_number};

// Blanks part words; the carriage return of a line's end counts as one.
fn is_blank(b: u8) -> bool
    ensures { result ≡ is_blank b }
{
    matches!(b, b' ' | b'\t' | b'\r')
}

#[tactic(auto, using(crate::proofs::Blanked::past_from))]
pub fn past_blanks(line: &[u8]) -> &[u8]
    ensures { result.now ≡ past_blanks line.now }
{
    line.split_at(blanks_before(line)).1
}

// Two counts, each named for what it counts: one over a test would be take_while itself.
fn blanks_before(line: &[u8]) -> usize
    ensures count { result ≡ prefix_len (λ b. is_blank b) line.now }
    ensures within { result ≤ length line.now }
{
    line.iter().take_while(|b| is_blank(**b)).count()
}

// The next word, and what stands behind it.
pub fn word(line: &[u8]) -> (&[u8], &[u8])
    ensures word { result.0.now ≡ first_word (past_blanks line.now) }
    ensures behind { result.1.now ≡ behind_word (past_blanks line.now) }
{
    up_to_blank(past_blanks(line))
}

#[tactic(auto, using(crate::proofs::Blanked::word_to, crate::proofs::Blanked::behind_from))]
fn up_to_blank(line: &[u8]) -> (&[u8], &[u8])
    ensures word { result.0.now ≡ first_word line.now }
    ensures behind { result.1.now ≡ behind_word line.now }
{
    line.split_at(bytes_before_blank(line))
}

fn bytes_before_blank(line: &[u8]) -> usize
    ensures count { result ≡ prefix_len (λ b. not (is_blank b)) line.now }
    ensures within { result ≤ length line.now }
{
    line.iter().take_while(|b| !is_blank(**b)).count()
}

// A decimal number of at most 64 bits, and nothing else.
pub fn read_number(digits: &[u8]) -> Option<usize>
    ensures { result ≡ read_number digits.now }
{
    if digits.is_empty() {
        return None;
    }
    let mut value = 0;
    for d in digits {
        value = one_more_digit(value, *d)?;
    }
    Some(value)
}

fn one_more_digit(value: usize, d: u8) -> Option<usize>
    ensures { result ≡ more_digit value d }
{
    let digit = char::from(d).to_digit(10)?;
    value.checked_mul(10)?.checked_add(digit as usize)
}
