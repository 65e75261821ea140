// What a program prints of a text.
ghost use Rattle.std.specs.Prelude.{◌++◌, ◌≡◌, length, drop};
ghost use Rattle.ground.specs.Walks.{relevancy, magic, printed};

use crate::answer::put_verdict;
use crate::line::put_head;
use reading::read::read;

// Prints what the relevancy engine says of a text, and gives the number of bytes.
pub fn print_relevancy(text: &[u8], out: &mut [u8; 12288]) -> usize
    ensures { (result ≡ length (printed relevancy text.now)) × (out.new ≡ printed relevancy text.now ++ drop result out.old) }
{
    let mut table = [0u8; 4096];
    match read(text, &mut table) {
        Err(refusal) => put_head(refusal.fault.number(), 0, refusal.line as u32, out),
        Ok(()) => {
            let mut answer = [0u8; 1024];
            let mut work = [0u8; 65536];
            let reply = relevancy_calls::fit::fit(&table, &mut answer, &mut work);
            let verdict = reply.verdict;
            put_verdict(&table, &answer, verdict, out)
        }
    }
}

// The same by the magic engine.
pub fn print_magic(text: &[u8], out: &mut [u8; 12288]) -> usize
    ensures { (result ≡ length (printed magic text.now)) × (out.new ≡ printed magic text.now ++ drop result out.old) }
{
    let mut table = [0u8; 4096];
    match read(text, &mut table) {
        Err(refusal) => put_head(refusal.fault.number(), 0, refusal.line as u32, out),
        Ok(()) => {
            let mut rules = [0u8; 16384];
            let mut answer = [0u8; 1024];
            let mut work = [0u8; 65536];
            let reply = magic_calls::fit::fit(&table, &mut rules, &mut answer, &mut work);
            let verdict = reply.verdict;
            put_verdict(&table, &answer, verdict, out)
        }
    }
}
