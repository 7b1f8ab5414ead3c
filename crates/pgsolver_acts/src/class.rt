// The class of a byte: what a reader of PGSolver texts tells apart.
ghost use Rattle.std.specs.Prelude.{◌≡◌};
ghost use Rattle.grammar.specs.Machine.{class_of};
ghost use Rattle.pgsolver_acts.specs.Shown.{class_in};

#[derive(Clone, Copy)]
pub enum Class {
    Separator,
    Digit,
    Comma,
    Semicolon,
    Quote,
    Letter,
    Other,
}

// The class that a byte falls into.
pub fn class_of(b: u8) -> Class
    ensures { class_in result ≡ class_of b }
{
    match b {
        b' ' | b'\t' | b'\r' | b'\n' => Class::Separator,
        b'0'..=b'9' => Class::Digit,
        b',' => Class::Comma,
        b';' => Class::Semicolon,
        b'"' => Class::Quote,
        b'A'..=b'Z' | b'a'..=b'z' => Class::Letter,
        _ => Class::Other,
    }
}
