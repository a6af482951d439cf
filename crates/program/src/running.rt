// The run over a whole input.
ghost use Rattle.std.specs.Prelude.{◌≡◌, ◌≤◌, length};
ghost use Rattle.std.proofs.lemmas.List.Edits.{sets};
ghost use Rattle.events.specs.Output.{longest_output, output_of};

use board::BLOCKS;

// The run with this table. Answers the length of the whole output, of which as much is put at the start of output as it has room for.
#[unsafe(no_mangle)]
pub extern "C" fn unit486_run(table: &[u8; BLOCKS], input: &[u8], output: &mut [u8]) -> usize
    ensures value { (result ≡ length (output_of table.now input.now)) × (output.new ≡ sets output.old 0 (output_of table.now input.now)) }
    ensures upper_bound { result ≤ longest_output }
{
    events::run(table, input, output)
}
