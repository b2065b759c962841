// The root map of a class list, and its count.
#![tactic(auto)]

ghost use Rattle.std.specs.Prelude.{◌≡◌, length};
ghost use Rattle.refusal.specs.Rules.{tried, value_or};
ghost use Rattle.rootmap.specs.Map.{size_rules, mapped_of, map_filled, counted_of};

use refusal::Refusal;

mod bits;
mod count;
mod fill;

// The root map of a list of classes: bit r of the map is 1 exactly if the residue r is a member of a class. Every byte of the map is
// written, whatever it held. Rules 4, 14, 5, 6, 7, 9 and 10; a refusal alters nothing.
pub fn fill_map(
    p: u32,
    n: u32,
    residues: &[i32],
    levels: &[u8],
    map: &mut [u8],
) -> Result<(), Refusal>
    ensures answer { result ≡ mapped_of p n residues.now levels.now (length map.old) }
    ensures map { map.new ≡ map_filled p n residues.now levels.now map.old }
{
    let m = classes::check_list(p, n, residues, levels)?;
    check_size(m, map.len())?;
    map.fill(0);
    fill::set_classes(p, n, residues, levels, m as usize, map);
    Ok(())
}

// The number of ones among the first pⁿ bits of a map; spare bits are ignored. Rules 4, 14, 5, 9 and 10.
pub fn count_map(p: u32, n: u32, map: &[u8]) -> Result<u64, Refusal>
    ensures { result ≡ counted_of p n map.now }
{
    let m = numbers::check_modulus(p, n)?;
    check_size(m, map.len())?;
    Ok(count::count_ones(map, m as usize))
}

// Rules 9 and 10 for m = pⁿ.
fn check_size(m: u64, bytes: usize) -> Result<(), Refusal>
    ensures { result ≡ value_or (tried (size_rules m bytes)) tt }
{
    if 524288 < m {
        return Err(Refusal::MapTooLarge);
    }
    if bytes as u64 != (m + 7) / 8 {
        return Err(Refusal::MapLength);
    }
    Ok(())
}
