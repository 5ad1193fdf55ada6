ghost use Rattle.std.specs.Prelude.{◌≡◌, ◌≤◌, ◌<◌, ◌+◌, ◌^◌, length};
ghost use Rattle.vert_lex.specs.Text.{after, through};

use vert_base::Span;

/// The place just after some bytes.
pub(crate) fn through(span: Span, bytes: &[u8]) -> Span
    requires at { span.at + length bytes.now < 2 ^ 32 }
    requires line { span.line + length bytes.now < 2 ^ 32 }
    requires column { span.column + length bytes.now < 2 ^ 32 }
    ensures { result ≡ through span bytes.now }
{
    let mut span = span;
    'bytes: for b in bytes {
        span = after(span, *b);
    }
    span
}

/// The place just after a byte.
fn after(span: Span, b: u8) -> Span
    requires at { span.at + 1 < 2 ^ 32 }
    requires line { span.line + 1 < 2 ^ 32 }
    requires column { span.column + 1 < 2 ^ 32 }
    ensures { result ≡ after span b }
{
    if b == b'\n' {
        Span {
            at: span.at + 1,
            line: span.line + 1,
            column: 1,
        }
    } else {
        Span {
            at: span.at + 1,
            line: span.line,
            column: span.column + 1,
        }
    }
}
