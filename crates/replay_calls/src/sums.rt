// The calls of the checksum.
ghost use Rattle.std.specs.Prelude.{◌≡◌};
ghost use Rattle.error.specs.Lent.{with};
ghost use Rattle.text.specs.Text.{written};
ghost use Rattle.replay_calls.specs.Sums.{lookup3_call, hashlittle_call, verify_call};

use checksum::{hashlittle, jenkins_lookup3, verify_trailing};
use replay_lines::answer::{bad, checked_answer, number_line};

pub(crate) fn lookup3_call(args: &[u64], data: &[u8], out: &mut [u8]) -> usize
    ensures { with result out.new ≡ written 0 (lookup3_call args.now «data».now) out.old }
{
    if !args.is_empty() {
        return bad(out);
    }
    number_line(out, u64::from(jenkins_lookup3(data)))
}

pub(crate) fn hashlittle_call(args: &[u64], data: &[u8], out: &mut [u8]) -> usize
    ensures { with result out.new ≡ written 0 (hashlittle_call args.now «data».now) out.old }
{
    let &[initval] = args else {
        return bad(out);
    };
    let Ok(initval) = u32::try_from(initval) else {
        return bad(out);
    };
    number_line(out, u64::from(hashlittle(data, initval)))
}

pub(crate) fn verify_call(args: &[u64], data: &[u8], out: &mut [u8]) -> usize
    ensures { with result out.new ≡ written 0 (verify_call args.now «data».now) out.old }
{
    if !args.is_empty() {
        return bad(out);
    }
    checked_answer(out, verify_trailing(data))
}
