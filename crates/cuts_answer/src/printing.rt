// The search that an input asks for, and its answer in lines.
ghost use Rattle.std.specs.Prelude.{◌≡◌, ◌≤◌, length, Some};
ghost use Rattle.cuts_output.specs.Written.{Front};
ghost use Rattle.cuts_input.specs.Form.{input_readings, request_of};
ghost use Rattle.cuts_answer.specs.Answer.{output_bytes, request_said, output};
ghost use Rattle.cuts_answer.specs.Inner.Held.{asked, Says};

use cuts_input::{Request, read_request};
use cuts_output::{print_cuts, print_refusal};
use pelt::Pelt;
use refusals::Refusal;

// The room that a search of as many readings as an input may hold asks: their cuts, their work floats
// in whichever channels they stand, their work indices; and the slots that the program lends.
const CUTS: usize = 515;

const FLOATS: usize = 4138;

const INDICES: usize = 3093;

const SLOTS: usize = 40;

// Lends the strict search that `request` asks for, of `readings` in channels of these `lengths`, room
// enough for every input. The cuts go to the front of `cuts`, and the answer is how many there are.
fn search(
    request: Request,
    readings: &[f64],
    lengths: &[usize],
    cuts: &mut [usize; CUTS],
) -> Result<usize, Refusal>
    requires { length readings.now ≤ input_readings }
    ensures { Says result cuts.new (request_said (Some (asked request readings.now lengths.now))) }
{
    let mut floats = [0.0; FLOATS];
    let mut indices = [0; INDICES];
    let mut pool = [0.0; Pelt::SLOT_FLOATS * SLOTS];
    Pelt::with_min_segment_len(
        request.cost,
        request.penalty,
        request.min_segment_len,
    ).detect_multi_strict(
        readings,
        lengths,
        cuts,
        &mut floats,
        &mut indices,
        &mut pool,
    )
}

// The answer to `input`: how many cuts there are, which go to the front of `cuts`, or a refusal.
fn find_cuts(input: &[u8], cuts: &mut [usize; CUTS]) -> Result<usize, Refusal>
    ensures { Says result cuts.new (request_said (request_of input.now)) }
{
    // The areas are moved out, so that they are copied for a request alone.
    let parsed = read_request(input);
    let run = parsed.run;
    let area = parsed.lengths;
    let Some(request) = parsed.request else {
        return Err(Refusal::Form);
    };
    let readings = &run[..request.readings];
    let lengths = &area[..request.channels];
    search(request, readings, lengths, cuts)
}

// Writes what the program answers to `input` to the front of `out`, and says how many bytes that is.
pub(crate) fn print_answer(input: &[u8], out: &mut [u8]) -> usize
    requires { output_bytes ≤ length out.old }
    ensures { Front (output input.now) out.old out.new result }
{
    let mut cuts = [0; CUTS];
    match find_cuts(input, &mut cuts) {
        Ok(count) => print_cuts(&cuts[..count], out),
        Err(refusal) => print_refusal(refusal, out),
    }
}
