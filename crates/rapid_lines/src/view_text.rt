// What `node` prints of views.

ghost use Rattle.std.specs.Prelude.{◌≡◌, ◌++◌, ◌∷◌, [], decimal, codes, OnOk};
ghost use Rattle.rapid_model.specs.EndpointText.{endpoint_text};
ghost use Rattle.rapid_model.specs.Lines.{space};
ghost use Rattle.rapid_lines.specs.ViewText.{member_text, members_text, view_text};

use rapid_config::Configuration;
use rapid_endpoint::{Endpoint, Process};
use rapid_text::write_tags;
use std::alloc::AllocError;

/// The line that a line prints which is no command.
pub const BAD_LINE: &[u8] = b"refused BadLine\n";

/// The line that `view` prints if there is no view yet.
pub const NO_VIEW: &[u8] = b"no view\n";

/// Appends a number.
pub(crate) fn write_number(number: u64, output: &mut Vec<u8>) -> Result<(), AllocError>
    ensures { OnOk result (output.new.items ≡ output.old.items ++ decimal number) }
{
    let alloc = *output.allocator();
    let text = number.to_string(alloc)?;
    output.extend_from_slice(text.as_bytes())
}

/// Appends an endpoint.
fn write_endpoint(endpoint: Endpoint, output: &mut Vec<u8>) -> Result<(), AllocError>
    ensures { OnOk result (output.new.items ≡ output.old.items ++ endpoint_text endpoint) }
{
    let alloc = *output.allocator();
    let text = endpoint.to_string(alloc)?;
    output.extend_from_slice(text.as_bytes())
}

/// Appends the endpoint of a member, and its tags behind it.
pub(crate) fn write_member(member: &Process, output: &mut Vec<u8>) -> Result<(), AllocError>
    ensures { OnOk result (output.new.items ≡ output.old.items ++ member_text member.now) }
{
    write_endpoint(member.endpoint(), output)?;
    write_tags(member.tags(), output)
}

/// Appends a space and a member.
fn write_one_more(member: &Process, output: &mut Vec<u8>) -> Result<(), AllocError>
    ensures { OnOk result (output.new.items ≡ output.old.items ++ space ∷ member_text member.now) }
{
    output.push(b' ')?;
    write_member(member, output)
}

/// Appends members, with a space before each.
fn write_members(members: &[Process], output: &mut Vec<u8>) -> Result<(), AllocError>
    ensures { OnOk result (output.new.items ≡ output.old.items ++ members_text members.now) }
{
    for member in members {
        write_one_more(member, output)?;
    }
    Ok(())
}

/// Appends the line of a view: its height, and the endpoints and tags of its members in order of
/// identifier.
pub fn write_view(configuration: &Configuration, output: &mut Vec<u8>) -> Result<(), AllocError>
    ensures { OnOk result (output.new.items ≡ output.old.items ++ view_text configuration.now) }
{
    output.extend_from_slice(b"height ")?;
    write_number(configuration.height(), output)?;
    output.extend_from_slice(b" members")?;
    write_members(configuration.members(), output)?;
    output.push(b'\n')?;
    Ok(())
}
