//! Objects, printed member by member.

ghost use Rattle.std.specs.Prelude.{◌≡◌, ◌++◌, OnOk, map, codes};
ghost use Rattle.wire_value.specs.View.{member_view, members_of};
ghost use Rattle.wire_value.specs.Text.{members_text};
ghost use Rattle.wire_value.specs.Tasks.{Leaves, task_text, task_weight, members_weight};

use crate::Member;
use crate::task::Task;
use elm_base::quoted::write_text;
use std::alloc::AllocError;

/// Writes the name of the first member and leaves its value and the others, or writes the end of the object.
pub fn put_object<'a>(
    text: &mut Vec<u8>,
    tasks: &mut Vec<Task<'a>>,
    members: &'a [Member],
) -> Result<(), AllocError>
    ensures { OnOk result (Leaves (members_text (members_of (map member_view members.now)) ++ codes "}")
        (members_weight (members_of (map member_view members.now)))
        text.old.items tasks.old.items text.new.items tasks.new.items) }
{
    let Some((first, rest)) = members.split_first() else {
        return Ok(text.push(b'}')?);
    };
    write_text(text, first.name.as_slice())?;
    text.push(b':')?;
    tasks.push(Task::Members(rest))?;
    tasks.push(Task::Value(&first.value))?;
    Ok(())
}

/// Writes the comma before members, and goes on with them, or writes the end of the object.
pub fn put_members<'a>(
    text: &mut Vec<u8>,
    tasks: &mut Vec<Task<'a>>,
    members: &'a [Member],
) -> Result<(), AllocError>
    ensures { OnOk result (Leaves (task_text (Task.Members members.entry))
        (task_weight (Task.Members members.entry)) text.old.items tasks.old.items text.new.items tasks.new.items) }
{
    if !members.is_empty() {
        text.push(b',')?;
    }
    put_object(text, tasks, members)
}
