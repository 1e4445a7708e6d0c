//! The lines that a trace prints.
ghost use Rattle.std.specs.Prelude.{◌≡◌, ◌++◌, OnOk, codes, if◌then◌else◌};
ghost use Rattle.trace_text.specs.Answers.{fault_text, reply_text, advance_text, show_numbers};

use itoa::{Buffer, Integer};
use phaser_one::{Advance, OneFault, Reply};
use std::alloc::AllocError;

/// Returns the line of a refusal.
pub(crate) fn fault_line(fault: OneFault) -> &'static str
    ensures { result.now ≡ fault_text fault }
{
    match fault {
        OneFault::TooMany => "refused 1 TooMany\n",
        OneFault::Full => "refused 2 Full\n",
        OneFault::NobodyUnarrived => "refused 3 NobodyUnarrived\n",
        OneFault::Negative => "refused 4 Negative\n",
    }
}

/// Appends the text of a number.
pub(crate) fn push_number<I: Integer>(out: &mut Vec<u8>, n: I) -> Result<(), AllocError>
    ensures { OnOk result (out.new.items ≡ out.old.items ++ I.text n) }
{
    out.extend_from_slice(Buffer::new().format(n).as_bytes())
}

/// Appends a name and a number.
pub(crate) fn push_field<I: Integer>(out: &mut Vec<u8>, name: &[u8], n: I) -> Result<(), AllocError>
    ensures { OnOk result (out.new.items ≡ out.old.items ++ name.now ++ I.text n) }
{
    out.extend_from_slice(name)?;
    push_number(out, n)
}

/// Appends the line of a reply.
pub(crate) fn push_reply(out: &mut Vec<u8>, reply: Reply) -> Result<(), AllocError>
    ensures { OnOk result (out.new.items ≡ out.old.items ++ reply_text reply) }
{
    match reply {
        Reply::Number(n) => {
            push_number(out, n)?;
            out.extend_from_slice(b"\n")
        }
        Reply::Waiting => out.extend_from_slice(b"waiting\n"),
        Reply::Refused(fault) => out.extend_from_slice(fault_line(fault).as_bytes()),
    }
}

/// Appends the line of an advance, if there is one.
pub(crate) fn push_advance(out: &mut Vec<u8>, advance: Option<Advance>) -> Result<(), AllocError>
    ensures { OnOk result (out.new.items ≡ out.old.items ++ advance_text advance) }
{
    let Some(Advance { phase, parties }) = advance else {
        return Ok(());
    };
    push_field(out, b"advance ", phase)?;
    push_field(out, b" parties ", parties)?;
    out.extend_from_slice(b"\n")
}

// Returns the end of the line of a show.
fn ended_text(ended: bool) -> &'static str
    ensures { result.now ≡ (if ended then codes " ended yes\n" else codes " ended no\n") }
{
    if ended { " ended yes\n" } else { " ended no\n" }
}

/// Appends the line of a show.
pub(crate) fn push_show(
    out: &mut Vec<u8>,
    phase: i32,
    parties: u32,
    unarrived: u32,
    ended: bool,
) -> Result<(), AllocError>
    ensures { OnOk result (out.new.items ≡ out.old.items ++ show_numbers phase parties unarrived ended) }
{
    push_field(out, b"phase ", phase)?;
    push_field(out, b" parties ", parties)?;
    push_field(out, b" unarrived ", unarrived)?;
    out.extend_from_slice(ended_text(ended).as_bytes())
}
