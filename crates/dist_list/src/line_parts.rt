//! The parts of a line of LIST: what stands between spaces and tabs.
ghost use Rattle.std.specs.Prelude.{◌≡◌, ◌≤◌, not, length};
ghost use Rattle.std.specs.List.{prefix_len};
ghost use Rattle.dist_base.specs.Ascii.{is_padding};
ghost use Rattle.dist_list.specs.LineParts.{parts_of, with_part};

fn is_padding(byte: u8) -> bool
    ensures { result ≡ is_padding byte }
{
    byte == b' ' || byte == b'\t'
}

fn padding_len(text: &[u8]) -> usize
    ensures value { result ≡ prefix_len is_padding text.now }
    ensures within { result ≤ length text.now }
{
    text.iter().take_while(|byte| is_padding(**byte)).count()
}

fn part_len(text: &[u8]) -> usize
    ensures value { result ≡ prefix_len (λ byte. not (is_padding byte)) text.now }
    ensures within { result ≤ length text.now }
{
    text.iter().take_while(|byte| !is_padding(**byte)).count()
}

/// The first part of a line, which is empty where the line has none, and what follows it.
pub(crate) fn split_part(line: &[u8]) -> (&[u8], &[u8])
    ensures { parts_of line.now ≡ with_part result.0.now (parts_of result.1.now) }
{
    let (_, rest) = line.split_at(padding_len(line));
    rest.split_at(part_len(rest))
}
