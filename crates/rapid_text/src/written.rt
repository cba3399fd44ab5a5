// Texts of numbers, nodes, tags and members. If memory runs out while one is appended, the output
// is as it was; if it is that of tags alone, the output begins with what it was.

ghost use Rattle.std.specs.Prelude.{◌≡◌, ◌++◌, ◌∷◌, [], length, take, flat_map, decimal, codes, OnOk, OnErr};
ghost use Rattle.rapid_model.specs.Lines.{space};
ghost use Rattle.rapid_model.specs.Process.{identifier};
ghost use Rattle.rapid_model.specs.Numbered.{number_under};
ghost use Rattle.rapid_model.specs.SimText.{node_text, number_text, numbers_text};
ghost use Rattle.rapid_model.specs.Tags.{tags_of, tags_text};
ghost use Rattle.rapid_endpoint.specs.TagsLeft.{tags_left};

use rapid_endpoint::{Process, ProcessId, Tags, TagsIter};
use std::alloc::AllocError;

/// Appends a number in decimal. If out of memory, the output is as it was.
pub fn write_number(number: u64, output: &mut Vec<u8>) -> Result<(), AllocError>
    ensures written { OnOk result (output.new.items ≡ output.old.items ++ decimal number) }
    ensures unchanged { OnErr result (output.new.items ≡ output.old.items) }
{
    let alloc = *output.allocator();
    let text = number.to_string(alloc)?;
    output.extend_from_slice(text.as_bytes())
}

/// Appends the number of an identifier.
fn write_identifier(id: &ProcessId, output: &mut Vec<u8>) -> Result<(), AllocError>
    ensures written { OnOk result (output.new.items ≡ output.old.items ++ decimal (number_under id.now)) }
    ensures unchanged { OnErr result (output.new.items ≡ output.old.items) }
{
    let alloc = *output.allocator();
    let text = u128::from_be_bytes(id.bytes()).to_string(alloc)?;
    output.extend_from_slice(text.as_bytes())
}

/// Appends a byte and a text. If out of memory, the output begins with what it was.
#[tactic(auto, using(crate::proofs::Texts::front_same))]
fn append_piece(byte: u8, text: &[u8], output: &mut Vec<u8>) -> Result<(), AllocError>
    ensures written { OnOk result (output.new.items ≡ output.old.items ++ (byte ∷ text.now)) }
    ensures begun { OnErr result (take (length output.old.items) output.new.items ≡ output.old.items) }
{
    output.push(byte)?;
    output.extend_from_slice(text)
}

/// Appends tags, a comma before each. If out of memory, the output begins with what it was.
#[tactic(auto, using(crate::proofs::Texts::front_same))]
fn append_more_tags(tags: TagsIter<'_>, output: &mut Vec<u8>) -> Result<(), AllocError>
    ensures written { OnOk result (output.new.items ≡ output.old.items ++ flat_map (λ t. 0x2c ∷ t) (tags_left tags.entry)) }
    ensures begun { OnErr result (take (length output.old.items) output.new.items ≡ output.old.items) }
{
    for tag in tags {
        append_piece(b',', tag, output)?;
    }
    Ok(())
}

/// Appends tags between square brackets, with commas between them; nothing if there are none. If
/// out of memory, the output begins with what it was.
#[tactic(auto, using(crate::proofs::Texts::front_same))]
pub fn write_tags(tags: &Tags, output: &mut Vec<u8>) -> Result<(), AllocError>
    ensures written { OnOk result (output.new.items ≡ output.old.items ++ tags_text (tags_of tags.now)) }
    ensures begun { OnErr result (take (length output.old.items) output.new.items ≡ output.old.items) }
{
    let mut rest = tags.iter();
    let Some(first) = rest.next() else {
        return Ok(());
    };
    append_piece(b'[', first, output)?;
    append_more_tags(rest, output)?;
    output.push(b']')?;
    Ok(())
}

/// Appends the number of a process and its tags, with a space before them. If out of memory, the
/// output begins with what it was.
#[tactic(auto, using(crate::proofs::Texts::front_same))]
fn append_member(member: &Process, output: &mut Vec<u8>) -> Result<(), AllocError>
    ensures written { OnOk result (output.new.items ≡ output.old.items ++ (space ∷ number_text member.now)) }
    ensures begun { OnErr result (take (length output.old.items) output.new.items ≡ output.old.items) }
{
    output.push(b' ')?;
    write_identifier(&member.id(), output)?;
    write_tags(member.tags(), output)
}

/// Appends the numbers of processes, each with a space before it and its tags behind it. If out of
/// memory, the output begins with what it was.
#[tactic(auto, using(crate::proofs::Texts::front_same))]
fn append_members(members: &[Process], output: &mut Vec<u8>) -> Result<(), AllocError>
    ensures written { OnOk result (output.new.items ≡ output.old.items ++ numbers_text members.now) }
    ensures begun { OnErr result (take (length output.old.items) output.new.items ≡ output.old.items) }
{
    for member in members {
        append_member(member, output)?;
    }
    Ok(())
}

/// Appends a node by its number. If out of memory, the output begins with what it was.
#[tactic(auto, using(crate::proofs::Texts::front_same))]
fn append_node(id: &ProcessId, output: &mut Vec<u8>) -> Result<(), AllocError>
    ensures written { OnOk result (output.new.items ≡ output.old.items ++ node_text id.now) }
    ensures begun { OnErr result (take (length output.old.items) output.new.items ≡ output.old.items) }
{
    output.extend_from_slice(b"node ")?;
    write_identifier(id, output)
}

/// Appends the numbers of processes, each with a space before it and its tags behind it. If out of
/// memory, the output is as it was.
pub fn write_members(members: &[Process], output: &mut Vec<u8>) -> Result<(), AllocError>
    ensures written { OnOk result (output.new.items ≡ output.old.items ++ numbers_text members.now) }
    ensures unchanged { OnErr result (output.new.items ≡ output.old.items) }
{
    let before = output.len();
    match append_members(members, output) {
        Ok(()) => Ok(()),
        Err(AllocError) => {
            output.truncate(before);
            Err(AllocError)
        }
    }
}

/// Appends a node by its number, as in `node 7`. If out of memory, the output is as it was.
pub fn write_node(id: &ProcessId, output: &mut Vec<u8>) -> Result<(), AllocError>
    ensures written { OnOk result (output.new.items ≡ output.old.items ++ node_text id.now) }
    ensures unchanged { OnErr result (output.new.items ≡ output.old.items) }
{
    let before = output.len();
    match append_node(id, output) {
        Ok(()) => Ok(()),
        Err(AllocError) => {
            output.truncate(before);
            Err(AllocError)
        }
    }
}
