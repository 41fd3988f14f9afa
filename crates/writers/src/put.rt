// Bytes put behind others.
ghost use Rattle.records.specs.Numbers.{bytes_of_numbers};
ghost use Rattle.std.specs.Prelude.{◌++◌};
ghost use Rattle.writers.specs.Written.{Begun, Put};

use channels::Fault;

// Puts these bytes behind those that are there.
pub fn put(out: &mut Vec<u8>, bytes: &[u8]) -> Result<(), Fault>
    ensures { Put result out.old.items bytes.now out.new.items }
{
    out.extend_from_slice(bytes)?;
    Ok(())
}

// Puts numbers behind the bytes that are there, four bytes each; where memory fails, some of them.
fn put_numbers(out: &mut Vec<u8>, numbers: &[u32]) -> Result<(), Fault>
    ensures { Begun result out.old.items (bytes_of_numbers numbers.now) out.new.items }
{
    for number in numbers {
        put(out, &number.to_be_bytes())?;
    }
    Ok(())
}

// Puts these bytes behind those that are there, and then numbers; where memory fails, some of it.
#[inline(always)]
fn begin(out: &mut Vec<u8>, head: &[u8], numbers: &[u32]) -> Result<(), Fault>
    ensures { Begun result out.old.items (head.now ++ bytes_of_numbers numbers.now) out.new.items }
{
    put(out, head)?;
    put_numbers(out, numbers)
}

// Puts these bytes behind those that are there, and then numbers; where memory fails, nothing. Taken into its callers, which know how many bytes stand first.
#[inline(always)]
pub fn put_whole(out: &mut Vec<u8>, head: &[u8], numbers: &[u32]) -> Result<(), Fault>
    ensures { Put result out.old.items (head.now ++ bytes_of_numbers numbers.now) out.new.items }
{
    let before = out.len();
    let done = begin(out, head, numbers);
    if done.is_err() {
        out.truncate(before);
    }
    done
}
