// The call Group: for each verdict record the position of the first that has its verdict, time and line. A record is compared with the first
// of each group so far, not with every record before it; and what is compared is one number, the key.
#![tactic(auto)]

ghost use Rattle.std.specs.Prelude.{◌≡◌, ◌+◌, ◌*◌, ◌<◌, ◌≤◌, length};
ghost use Rattle.lists.specs.Field.{overwritten};
ghost use Rattle.model.specs.Accepted.{GroupReady};
ghost use Rattle.model.specs.Group.{group_bytes, group_answer, group_area};
ghost use Rattle.job.specs.Job.{answer_of};
ghost use Rattle.group.specs.Groups.{KeyOf, Sought};

use job::Outcome;

// The key of record j: verdict, time and line in one number.
fn key_of(verdicts: &[u8], j: usize) -> usize
    requires { 16 * j + 16 ≤ length verdicts.now }
    ensures { KeyOf verdicts.now j result }
{
    let at = 16 * j;
    let verdict = usize::from(verdicts[at]);
    let time = basics::word_at(verdicts, at + 2);
    let line = basics::word_at(verdicts, at + 4);
    verdict + 256 * (time + 65536 * line)
}

// The first place whose key is the one at place `count`, and that place itself where no place before it has the key: what is
// written in both cases. Keys stand in an array of their own, since the search reads nothing else. The search ends at place `count` at the
// latest, so each place costs one comparison: `position` makes two, and Group of many keys takes up to 1.6 times as long by it
// (docs/DESIGN-PASS.md, Speed).
fn find(keys: &[usize], count: usize) -> usize
    requires { count < length keys.now }
    ensures { Sought keys.now count result }
{
    let key = keys[count];
    let mut x: usize = 0;
    while keys[x] != key {
        x += 1;
    }
    x
}

// The groups of accepted records, with room lent for as many groups as there are records. A record's key and position stand behind those of
// the groups so far; they stay there if it starts a group.
pub fn write_groups(verdicts: &[u8], keys: &mut [usize], firsts: &mut [usize], res: &mut [u8])
    requires { (GroupReady verdicts.now (length res.old))
        × (length verdicts.now ≤ 16 * length keys.old) × (length verdicts.now ≤ 16 * length firsts.old) }
    ensures { res.new ≡ overwritten (group_bytes verdicts.now) res.old }
{
    // Keys stand alone, since the search reads nothing else.
    let size = verdicts.len() / 16;
    let mut count: usize = 0;
    for j in 0..size {
        keys[count] = key_of(verdicts, j);
        firsts[count] = j;
        let x = find(keys, count);
        record::put16(res, 2 * j, firsts[x]);
        count += usize::from(x == count);
    }
}

// The same, in a room for so many groups.
fn group_in<const ROOM: usize>(verdicts: &[u8], res: &mut [u8])
    requires { (GroupReady verdicts.now (length res.old)) × (length verdicts.now ≤ 16 * ROOM) × (ROOM ≤ 32768) }
    ensures { res.new ≡ overwritten (group_bytes verdicts.now) res.old }
{
    let mut keys = [0usize; ROOM];
    let mut firsts = [0usize; ROOM];
    write_groups(verdicts, &mut keys, &mut firsts, res);
}

// The same. Few records do with a room that is cleared sooner.
fn group_accepted(verdicts: &[u8], res: &mut [u8])
    requires { GroupReady verdicts.now (length res.old) }
    ensures { res.new ≡ overwritten (group_bytes verdicts.now) res.old }
{
    if verdicts.len() <= 4096 {
        group_in::<256>(verdicts, res);
    } else {
        group_in::<32768>(verdicts, res);
    }
}

// The group of each verdict record, by its first; see README.md, Calls.
pub fn group(verdicts: &[u8], res: &mut [u8]) -> Outcome
    ensures answers { answer_of result ≡ group_answer verdicts.now (length res.old) }
    ensures writes { res.new ≡ group_area verdicts.now res.old }
{
    job::check_group(verdicts, res.len())?;
    group_accepted(verdicts, res);
    Ok(verdicts.len() / 16)
}
