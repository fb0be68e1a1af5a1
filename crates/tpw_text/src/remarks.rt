//! Remarks of a text: comments that say where the bytes of a run go.

ghost use Rattle.std.specs.Prelude.{◌≡◌, ◌++◌, string_bytes, OnOk};
ghost use Rattle.std.specs.List.{flat_map};
ghost use Rattle.std.specs.Option.{option_copied};
ghost use Rattle.tpw_text.specs.Written.{loop_remark, above, behind, as_line};

use std::alloc::AllocError;

/// The most instruction bytes of a loop, once it is entered.
#[derive(Clone, Copy, Debug, PartialEq, Eq)]
pub struct LoopRemark {
    /// The addresses of its first instruction and of its `lend`.
    pub head: u32,
    pub lend: u32,
    /// How many turns it makes.
    pub turns: u32,
    /// The bytes of a turn.
    pub turn: u64,
}

/// The most instruction bytes from a line on.
#[derive(Clone, Copy, Debug, PartialEq, Eq)]
pub struct LineRemark {
    /// The address of its instruction.
    pub address: u32,
    /// The bytes to the end of the loop around it, or of the run.
    pub on: u64,
}

/// Where the bytes of a run go.
#[derive(Clone, Copy)]
pub struct Remarks<'a> {
    /// The most instruction bytes of a run.
    pub budget: u32,
    pub loops: &'a [LoopRemark],
    /// By the number of a line.
    pub lines: &'a [Option<LineRemark>],
}

/// Appends what is remarked of a loop.
#[tactic(auto, unfolding(crate::specs::Written::loop_remark))]
fn put_loop_remark(text: &mut String, remark: &LoopRemark) -> Result<(), AllocError>
    ensures { OnOk result (string_bytes text.new ≡ string_bytes text.old ++ loop_remark remark.now) }
{
    let LoopRemark {
        head,
        lend,
        turns,
        turn,
    } = *remark;
    let all = u64::from(turns).saturating_mul(turn);
    writeln!(
        text,
        "; loop {head} to {lend}: {turns} turns of {turn}, {all} in all"
    )
}

/// Appends what is remarked of loops.
fn put_loop_remarks(text: &mut String, remarks: &[LoopRemark]) -> Result<(), AllocError>
    ensures { OnOk result (string_bytes text.new ≡ string_bytes text.old ++ flat_map loop_remark remarks.now) }
{
    for remark in remarks {
        put_loop_remark(text, remark)?;
    }
    Ok(())
}

/// Appends what goes above the text.
#[tactic(auto, unfolding(crate::specs::Written::above, crate::specs::Written::remarks_above))]
pub fn put_above(text: &mut String, remarks: Option<&Remarks<'_>>) -> Result<(), AllocError>
    ensures { OnOk result (string_bytes text.new ≡ string_bytes text.old ++ above (option_copied remarks.entry)) }
{
    let Some(remarks) = remarks else {
        return Ok(());
    };
    let budget = remarks.budget;
    writeln!(text, "; at most {budget} instruction bytes")?;
    put_loop_remarks(text, remarks.loops)?;
    text.push_str(
        "; behind an instruction: its address, and the bytes from it to the end of the loop around it, or of the run\n",
    )
}

/// Appends what goes behind a line.
#[tactic(auto, unfolding(crate::specs::Written::behind))]
fn put_behind(
    text: &mut String,
    remarks: Option<&Remarks<'_>>,
    number: usize,
) -> Result<(), AllocError>
    ensures { OnOk result (string_bytes text.new
        ≡ string_bytes text.old ++ behind (option_copied remarks.entry) number) }
{
    if let Some(remarks) = remarks {
        if let Some(Some(remark)) = remarks.lines.get(number) {
            let LineRemark { address, on } = *remark;
            write!(text, "  ; {address}: {on}")?;
        }
    }
    Ok(())
}

/// Appends what goes behind a line, and ends it.
pub fn end_line(
    text: &mut String,
    remarks: Option<&Remarks<'_>>,
    number: usize,
) -> Result<(), AllocError>
    ensures { OnOk result (string_bytes text.new
        ≡ string_bytes text.old ++ as_line (behind (option_copied remarks.entry) number)) }
{
    put_behind(text, remarks, number)?;
    text.push_str("\n")
}
