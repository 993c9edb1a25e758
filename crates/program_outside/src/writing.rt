ghost use Rattle.std.specs.Prelude.{◌≡◌, ◌≤◌, OnOk, OnErr};
ghost use Rattle.program_outside.specs.Outside.{SinkFailed, Took, Delivered, TookFront, sink_of};

use dn_base::{Failed, Sink};

/// Writes all of these bytes and flushes the sink.
///
/// # Errors
/// `Failed` if a call of the sink fails. The sink has then taken a prefix of the bytes.
pub fn write_text<K: Sink>(sink: &mut K, bytes: &[u8]) -> Result<(), Failed>
    ensures ok { OnOk result (Delivered (sink_of K.Sink sink.old) (sink_of K.Sink sink.new) bytes.now) }
    ensures front { TookFront (sink_of K.Sink sink.old) (sink_of K.Sink sink.new) bytes.now }
    ensures counted { K.faults sink.old ≤ K.faults sink.new }
    ensures failed { OnErr result (SinkFailed (sink_of K.Sink sink.old) (sink_of K.Sink sink.new)) }
{
    write_bytes(sink, bytes)?;
    sink.flush()
}

/// Writes all of these bytes.
fn write_bytes<K: Sink>(sink: &mut K, bytes: &[u8]) -> Result<(), Failed>
    ensures ok { OnOk result (Took (sink_of K.Sink sink.old) (sink_of K.Sink sink.new) bytes.now) }
    ensures faultless { OnOk result (K.faults sink.new ≡ K.faults sink.old) }
    ensures front { TookFront (sink_of K.Sink sink.old) (sink_of K.Sink sink.new) bytes.now }
    ensures counted { K.faults sink.old ≤ K.faults sink.new }
    ensures failed { OnErr result (SinkFailed (sink_of K.Sink sink.old) (sink_of K.Sink sink.new)) }
{
    let mut done = 0;
    while done < bytes.len() {
        done += sink.write(&bytes[done..])?;
    }
    Ok(())
}
