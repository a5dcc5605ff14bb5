//! Writing a value into a page.

ghost use Rattle.std.specs.Prelude.{◌≡◌, ◌++◌, OnOk, OnErr, if◌then◌else◌};
ghost use Rattle.doll_schema.specs.Escape.{escaped};
ghost use Rattle.doll_eval.specs.Operations.{written};

use doll_expr::Memory;
use doll_schema::{Val, Value, escape_bytes};
use itoa::Buffer;

/// Appends what a value prints, escaped for HTML unless `raw`. A refusal changes nothing.
pub fn print(val: &Val, raw: bool, out: &mut Vec<u8>) -> Result<(), Memory>
    ensures ok { OnOk result (out.new.items ≡ out.old.items ++ written raw val.now) }
    ensures err { OnErr result (out.new.items ≡ out.old.items) }
{
    match val {
        Val::Plain(Value::Text(text)) => write(text.as_bytes(), raw, out),
        Val::Plain(Value::Int(number)) => {
            let mut digits = Buffer::new();
            write(digits.format(*number).as_bytes(), raw, out)
        }
        Val::Plain(Value::Bool(true)) => write(b"true", raw, out),
        Val::Plain(Value::Bool(false)) => write(b"false", raw, out),
        _ => Ok(()),
    }
}

fn write(bytes: &[u8], raw: bool, out: &mut Vec<u8>) -> Result<(), Memory>
    ensures ok { OnOk result
        (out.new.items ≡ out.old.items ++ (if raw then bytes.now else escaped bytes.now)) }
    ensures err { OnErr result (out.new.items ≡ out.old.items) }
{
    if raw {
        out.extend_from_slice(bytes)?;
        Ok(())
    } else {
        escape_bytes(bytes, out)
    }
}
