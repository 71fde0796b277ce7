// The bench program: a map and after it the samples of a trace come on standard input, and text goes to standard output.
#![tactic(auto)]

use text_recording::{Failure, read_recording};

// Reads the recording. Where input or output fails, standard error says why; where that fails too, nothing can be said.
fn main(rt: HostRuntime) {
    let reading = read_recording(&mut rt.stdin(), false, &mut rt.stdin(), &mut rt.stdout());
    match reading.end {
        Ok(()) | Err(Failure::Refused(_)) => {}
        Err(Failure::MapFailed(reason)) | Err(Failure::SamplesFailed(reason)) => {
            let _ = eprintln!(rt; "standard input: {reason}");
        }
        Err(Failure::OutputFailed(reason)) => {
            let _ = eprintln!(rt; "standard output: {reason}");
        }
    }
}
