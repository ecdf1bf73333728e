// The code that reads the number on a line of input, and finds where the next line begins.
#![tactic(auto)]

ghost use Rattle.std.specs.Prelude.{◌≡◌, ◌≤◌, ◌==◌, ◌↔◌, IsTrue, length, drop};
ghost use Rattle.std.specs.List.{position_or_len};
ghost use Rattle.line.specs.Line.{first_line, after_line, IsNumber, decimal};
ghost use Rattle.line.specs.Answers.{line_answer, told};

// The line feed.
pub const LINE_END: u8 = b'\n';

// Where a byte stands first, or how many bytes there are if it stands nowhere.
pub fn find(bytes: &[u8], byte: u8) -> usize
    ensures within { result ≤ length bytes.now }
    ensures first { result ≡ position_or_len (λ b. b == byte) bytes.now }
{
    bytes.iter().take_while(|b| **b != byte).count()
}

fn first_line(input: &[u8]) -> &[u8]
    ensures { result.now ≡ first_line input.now }
{
    &input[..find(input, LINE_END)]
}

// Where the second line begins: after the first line feed, or at the end of the input if it has none.
pub fn after_line(input: &[u8]) -> usize
    ensures { (result ≤ length input.now) × (drop result input.now ≡ after_line input.now) }
{
    (find(input, LINE_END) + 1).min(input.len())
}

fn is_number(line: &[u8]) -> bool
    ensures { IsTrue result ↔ IsNumber line.now }
{
    (1..=5).contains(&line.len()) && line.iter().all(u8::is_ascii_digit)
}

fn decimal(line: &[u8]) -> u64
    requires { IsNumber line.now }
    ensures { result ≡ decimal line.now }
{
    let mut number = 0;
    for byte in line {
        number = number * 10 + u64::from(*byte - b'0');
    }
    number
}

// None for a first line that is not one to five figures.
pub fn number_on_line(input: &[u8]) -> Option<u64>
    ensures { told result ≡ line_answer input.now }
{
    let line = first_line(input);
    if is_number(line) {
        Some(decimal(line))
    } else {
        None
    }
}
