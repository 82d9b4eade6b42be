// The cells of a directory. The first half are the heads, one for each bucket: each holds its bucket's first place. In
// the second half stands, for each place, the next place of its bucket. Places rise along a chain, and the number of
// places stands for none. Nothing here looks at the book.
ghost use Rattle.std.specs.Prelude.{◌≡◌, ◌+◌, ◌<◌, ◌≤◌, get_or, length, set};
ghost use Rattle.chains.specs.Chains.{Before, Rising, half};

// The first place of a bucket.
pub fn first(dir: &[u16], bucket: usize) -> usize
    requires { bucket < half dir.now }
    ensures { result ≡ get_or dir.now bucket 0 }
{
    usize::from(dir[bucket])
}

// The next place after p.
pub fn next(dir: &[u16], p: usize) -> usize
    requires { p < half dir.now }
    ensures { result ≡ get_or dir.now (half dir.now + p) 0 }
{
    usize::from(dir[dir.len() / 2 + p])
}

// The cell of a bucket's chain that leads to the place p, or past it where p is not in the chain.
pub fn before(dir: &[u16], bucket: usize, p: usize) -> usize
    requires { Rising dir.now p × (bucket < half dir.now) }
    ensures { Before dir.now bucket p result × (p ≤ get_or dir.now result 0) }
{
    let mut x = bucket;
    let mut c = first(dir, bucket);
    while c < p {
        x = dir.len() / 2 + c;
        c = next(dir, c);
    }
    x
}

// Takes the place p, to which the cell x leads, out of its chain.
pub fn unlink(dir: &mut [u16], x: usize, p: usize)
    requires { (x < length dir.old) × (p < half dir.old) }
    ensures { let d = dir.old in
        dir.new ≡ set d x (get_or d (half d + p) 0) }
{
    dir[x] = dir[dir.len() / 2 + p];
}

// Puts the place p, past which the cell x leads, into the chain of that cell.
pub fn link(dir: &mut [u16], x: usize, p: usize)
    requires { (x < length dir.old) × (p < half dir.old) × (p < 65536) }
    ensures { let d = dir.old in
        dir.new ≡ set (set d (half d + p) (get_or d x 0)) x p }
{
    let s = dir.len() / 2 + p;
    dir[s] = dir[x];
    dir[x] = p as u16;
}
