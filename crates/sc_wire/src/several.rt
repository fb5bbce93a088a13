ghost use Rattle.std.specs.Prelude.{◌≡◌, ◌++◌, OnOk};

use crate::wire::Wire;
use sc_entry::NoMemory;

/// Writes two values, one after the other.
pub fn put2<A: Wire, B: Wire>(a: &A, b: &B, out: &mut Vec<u8>) -> Result<(), NoMemory>
    ensures spelled { OnOk result (out.new.items ≡ out.old.items ++ (A.codec.spell a.now ++ B.codec.spell b.now)) }
    ensures fits { OnOk result (A.codec.Fits a.now × B.codec.Fits b.now) }
{
    a.put(out)?;
    b.put(out)
}

pub fn put3<A: Wire, B: Wire, C: Wire>(
    a: &A,
    b: &B,
    c: &C,
    out: &mut Vec<u8>,
) -> Result<(), NoMemory>
    ensures spelled { OnOk result (out.new.items ≡ out.old.items ++ (A.codec.spell a.now ++ (B.codec.spell b.now ++ C.codec.spell c.now))) }
    ensures fits { OnOk result (A.codec.Fits a.now × (B.codec.Fits b.now × C.codec.Fits c.now)) }
{
    a.put(out)?;
    put2(b, c, out)
}

pub fn put4<A: Wire, B: Wire, C: Wire, D: Wire>(
    a: &A,
    b: &B,
    c: &C,
    d: &D,
    out: &mut Vec<u8>,
) -> Result<(), NoMemory>
    ensures spelled { OnOk result (out.new.items ≡ out.old.items ++ (A.codec.spell a.now ++ (B.codec.spell b.now ++ (C.codec.spell c.now ++ D.codec.spell d.now)))) }
    ensures fits { OnOk result (A.codec.Fits a.now × (B.codec.Fits b.now × (C.codec.Fits c.now × D.codec.Fits d.now))) }
{
    a.put(out)?;
    put3(b, c, d, out)
}

pub fn put5<A: Wire, B: Wire, C: Wire, D: Wire, E: Wire>(
    a: &A,
    b: &B,
    c: &C,
    d: &D,
    e: &E,
    out: &mut Vec<u8>,
) -> Result<(), NoMemory>
    ensures spelled { OnOk result (out.new.items ≡ out.old.items ++ (A.codec.spell a.now ++ (B.codec.spell b.now ++ (C.codec.spell c.now ++ (D.codec.spell d.now ++ E.codec.spell e.now))))) }
    ensures fits { OnOk result (A.codec.Fits a.now × (B.codec.Fits b.now × (C.codec.Fits c.now × (D.codec.Fits d.now × E.codec.Fits e.now)))) }
{
    a.put(out)?;
    put4(b, c, d, e, out)
}
