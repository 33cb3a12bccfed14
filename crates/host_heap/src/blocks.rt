//! The steps of the heap on its list of blocks, which stands in order of address. Sums are 64 bits wide, so none wraps.
ghost use Rattle.std.specs.Prelude.{◌≡◌, ◌≢◌, ◌==◌, ◌+◌, ◌<◌, ◌≤◌, ◌^◌, IfSome, All, AllPairs, vec_len, vec_capacity};
ghost use Rattle.std.specs.List.{list_all, insert as inserted, position, remove as removed};
ghost use Rattle.std.specs.List.Sorted.{IsNonDecreasingBy};
ghost use Rattle.host_heap.specs.Space.{rounded};
ghost use Rattle.host_heap.specs.Place.{can_append, can_place, fits, is_apart, lowest_fit, with_block, begins_at, without};
ghost use Rattle.host_heap.specs.laws.Place.{last_end, may_follow};
ghost use Rattle.host_heap.specs.Sound.{IsSound};

use crate::block::Block;
use crate::heap::BLOCK_LIMIT;
use mix_bits::round_up;

/// The size in bytes of the block that a request for `size` bytes gets. It may be 2^32, which fits nowhere.
pub fn rounded(size: u32) -> u64
    ensures value { result ≡ rounded size }
    ensures least { 8 ≤ result }
    ensures most { result ≤ 2 ^ 32 }
{
    round_up(u64::from(size), 8).max(8)
}

/// The lowest address from `low` on at which `size` bytes end by `high` and meet no block.
pub fn lowest_fit(blocks: &[Block], low: u32, high: u32, size: u64) -> Option<u32>
    requires sound { IsSound (record { low = low; high = high; blocks = blocks.now }) }
    requires least { 8 ≤ size }
    requires most { size ≤ 2 ^ 32 }
    ensures value { result ≡ lowest_fit (record { low = low; high = high; blocks = blocks.now }) size }
    ensures within { IfSome result (λ address. address + size ≤ high) }
{
    let mut address = low;
    for block in blocks {
        if u64::from(address) + size <= u64::from(block.address) {
            return Some(address);
        }
        address = block.address + block.size;
    }
    if u64::from(address) + size <= u64::from(high) {
        Some(address)
    } else {
        None
    }
}

/// Whether a block of `size` bytes may stand at this address beside those that stand.
pub fn can_place(blocks: &[Block], low: u32, high: u32, size: u32, address: u32) -> bool
    ensures { result ≡ can_place (record { low = low; high = high; blocks = blocks.now }) size address }
{
    blocks.len() < BLOCK_LIMIT
        && (size % 8 == 0
            && (8 <= size && (address % 8 == 0 && fits(blocks, low, high, size, address))))
}

/// Whether `size` bytes from this address on lie between `low` and `high` and meet no block.
#[tactic(auto, unfolding(crate::specs::Place::fits))]
fn fits(blocks: &[Block], low: u32, high: u32, size: u32, address: u32) -> bool
    ensures { result ≡ fits (record { low = low; high = high; blocks = blocks.now }) size address }
{
    let inside = (low <= address) & (u64::from(address) + u64::from(size) <= u64::from(high));
    inside && meets_none(blocks, size, address)
}

fn meets_none(blocks: &[Block], size: u32, address: u32) -> bool
    ensures { result ≡ list_all (is_apart size address) blocks.now }
{
    blocks.iter().all(|block| is_apart(block, size, address))
}

fn is_apart(block: &Block, size: u32, address: u32) -> bool
    ensures { result ≡ is_apart size address block.now }
{
    u64::from(address) + u64::from(size) <= u64::from(block.address)
        || u64::from(block.address) + u64::from(block.size) <= u64::from(address)
}

/// Whether such a block may stand there behind all others, of which the last one tells.
pub fn can_append(blocks: &[Block], low: u32, high: u32, size: u32, address: u32) -> bool
    requires { IsSound (record { low = low; high = high; blocks = blocks.now }) }
    ensures { result ≡ can_append (record { low = low; high = high; blocks = blocks.now }) size address }
{
    blocks.len() < BLOCK_LIMIT && may_follow(last_end(blocks, low), high, size, address)
}

/// Whether a block of `size` bytes may stand at this address behind one that ends at `end`, and ends by `high`.
pub fn may_follow(end: u64, high: u32, size: u32, address: u32) -> bool
    ensures { result ≡ may_follow end high size address }
{
    let behind = end <= u64::from(address);
    let inside = u64::from(address) + u64::from(size) <= u64::from(high);
    size % 8 == 0 && (8 <= size && (address % 8 == 0 && (behind && inside)))
}

/// Where the last block ends, `low` without one.
fn last_end(blocks: &[Block], low: u32) -> u64
    ensures { result ≡ last_end low blocks.now }
{
    match blocks.last() {
        None => u64::from(low),
        Some(last) => end(last),
    }
}

fn end(block: &Block) -> u64
    ensures { result ≡ block.now.address + block.now.size }
{
    u64::from(block.address) + u64::from(block.size)
}

/// Puts a block in between those below it and those above it.
pub fn add(blocks: &mut Vec<Block>, block: Block)
    requires room { vec_len blocks.old < vec_capacity blocks.old }
    requires order { IsNonDecreasingBy (λ b. b.address) blocks.old.items }
    requires apart { All (λ b. b.address ≢ block.address) blocks.old.items }
    ensures items { blocks.new.items ≡ with_block blocks.old.items block }
    ensures capacity { vec_capacity blocks.old ≤ vec_capacity blocks.new }
{
    let index = blocks.partition_point(|b| b.address < block.address);
    put_in(blocks, index, block);
}

/// Puts a block in at this number. Behind all others it moves none.
fn put_in(blocks: &mut Vec<Block>, index: usize, block: Block)
    requires room { vec_len blocks.old < vec_capacity blocks.old }
    requires within { index ≤ vec_len blocks.old }
    ensures items { blocks.new.items ≡ inserted blocks.old.items index block }
    ensures capacity { vec_capacity blocks.old ≤ vec_capacity blocks.new }
{
    if index == blocks.len() {
        blocks.push_reserved(block);
    } else {
        blocks.insert(index, block).unwrap();
    }
}

/// Leaves out the block that begins at this address, and says whether there was one.
pub fn remove(blocks: &mut Vec<Block>, address: u32) -> bool
    requires distinct { AllPairs (λ a b. a.address ≢ b.address) blocks.old.items }
    ensures found { result ≡ begins_at blocks.old.items address }
    ensures items { blocks.new.items ≡ without blocks.old.items address }
    ensures capacity { vec_capacity blocks.new ≡ vec_capacity blocks.old }
{
    match number_of(blocks, address) {
        Some(index) => {
            take_out(blocks, index);
            true
        }
        None => false,
    }
}

/// The number of the first block that begins at this address.
fn number_of(blocks: &[Block], address: u32) -> Option<usize>
    ensures { result ≡ position (λ b. b.address == address) blocks.now }
{
    blocks.iter().position(|block| block.address == address)
}

/// Takes out the block with this number. The last one leaves no gap to close.
fn take_out(blocks: &mut Vec<Block>, index: usize)
    requires { index < vec_len blocks.old }
    ensures items { blocks.new.items ≡ removed blocks.old.items index }
    ensures capacity { vec_capacity blocks.new ≡ vec_capacity blocks.old }
{
    if index + 1 == blocks.len() {
        let _last = blocks.pop();
    } else {
        let _gone = blocks.remove(index);
    }
}
