// The objects of a text, read as the calls that they ask for. Each function passes the tokens that
// it reads, and refuses the first that is not due.

ghost use Rattle.std.specs.Prelude.{◌≡◌, ◌+◌, ◌≤◌, vec_len};
ghost use Rattle.token.specs.Tokens.{Ahead, Out, at, out};
ghost use Rattle.token.specs.Grammar.{size, Falls};
ghost use Rattle.text.specs.Records.{field_due, next_field_due, next_number_due, opening_due, rule_due, added_due, step_due, list_due, rows_due, object_due, model_due, scale_due, run_due};
ghost use Rattle.text.specs.RowFalls.{added_falls, step_falls};
ghost use Rattle.text.specs.declared.asks.Ask.{Ask};

use crate::asks::Ask;
use crate::rows::Rows;
use automaton::{Opening, RuleNumbers};
use fault::Fault;
use token::Reader;

// `"word": number`
fn field(reader: &mut Reader<'_>, word: &[u8]) -> Result<u64, Fault>
    ensures { out (λ n. n) result (at reader.new) ≡ field_due word.now (at reader.old) }
{
    reader.member(word)?;
    reader.number()
}

fn next_field(reader: &mut Reader<'_>, word: &[u8]) -> Result<u64, Fault>
    ensures { out (λ n. n) result (at reader.new) ≡ next_field_due word.now (at reader.old) }
{
    reader.mark(',')?;
    field(reader, word)
}

fn next_number(reader: &mut Reader<'_>) -> Result<u64, Fault>
    ensures { out (λ n. n) result (at reader.new) ≡ next_number_due (at reader.old) }
{
    reader.mark(',')?;
    reader.number()
}

// The members of a model before its rules.
fn opening(reader: &mut Reader<'_>) -> Result<Opening, Fault>
    ensures { out (λ o. o) result (at reader.new) ≡ opening_due (at reader.old) }
{
    reader.mark('{')?;
    let states = field(reader, b"states")?;
    let start = next_field(reader, b"start")?;
    let target = next_field(reader, b"target")?;
    let labels = next_field(reader, b"labels")?;
    let clocks = next_field(reader, b"clocks")?;
    Ok(Opening {
        states,
        start,
        target,
        labels,
        clocks,
    })
}

// A row of exactly eight numbers.
fn rule(reader: &mut Reader<'_>) -> Result<RuleNumbers, Fault>
    ensures { out (λ n. n) result (at reader.new) ≡ rule_due (at reader.old) }
{
    reader.mark('[')?;
    let from = reader.number()?;
    let to = next_number(reader)?;
    let kind = next_number(reader)?;
    let argument = next_number(reader)?;
    let lower = next_number(reader)?;
    let lower_flag = next_number(reader)?;
    let upper = next_number(reader)?;
    let upper_flag = next_number(reader)?;
    reader.mark(']')?;
    Ok(RuleNumbers {
        from,
        to,
        kind,
        argument,
        lower,
        lower_flag,
        upper,
        upper_flag,
    })
}

// The rows of a list. Each takes a token at least.
pub(crate) trait Row {
    ghost due: { Ahead → Out Ask };

    ghost falls: { Falls due };

    fn read(reader: &mut Reader<'_>) -> Result<Ask, Fault>
        ensures { out (λ s. s) result (at reader.new) ≡ due (at reader.old) };
}

pub(crate) struct RuleRow;

impl Row for RuleRow {
    ghost due = { added_due };

    ghost falls = { added_falls };

    fn read(reader: &mut Reader<'_>) -> Result<Ask, Fault> {
        rule(reader).map(Ask::Add)
    }
}

// A row of a delay, or of a rule and a value.
pub(crate) struct StepRow;

impl Row for StepRow {
    ghost due = { step_due };

    ghost falls = { step_falls };

    fn read(reader: &mut Reader<'_>) -> Result<Ask, Fault> {
        reader.mark('[')?;
        let first = reader.number()?;
        if !reader.comma(']')? {
            return Ok(Ask::Delay(first));
        }
        let value = reader.number()?;
        reader.mark(']')?;
        Ok(Ask::Fire(first, value))
    }
}

// The scale, which is the first member of a run.
fn scale(reader: &mut Reader<'_>) -> Result<u64, Fault>
    ensures { out (λ n. n) result (at reader.new) ≡ scale_due (at reader.old) }
{
    reader.mark('{')?;
    field(reader, b"scale")
}

// Each call asks for the room that it needs: no type has it, since it depends on the tokens that the
// reader still has ahead.
impl Rows {
    // One row or more, up to the end of their list. They come after the rows that are held.
    fn rows_on<R: Row>(&mut self, reader: &mut Reader<'_>) -> Result<(), Fault>
        requires { vec_len self.old.asks + size (at reader.old) ≤ 65536 }
        ensures { out (λ _. self.new.asks.items) result (at reader.new) ≡ list_due R.due self.old.asks.items (at reader.old) }
    {
        loop {
            let ask = R::read(reader)?;
            self.asks.push_reserved(ask);
            if !reader.comma(']')? {
                return Ok(());
            }
        }
    }

    // A list of rows, which may be empty.
    fn list<R: Row>(&mut self, reader: &mut Reader<'_>) -> Result<(), Fault>
        requires { vec_len self.old.asks + size (at reader.old) ≤ 65536 }
        ensures { out (λ _. self.new.asks.items) result (at reader.new) ≡ rows_due R.due self.old.asks.items (at reader.old) }
    {
        reader.mark('[')?;
        if reader.passes(']') {
            return Ok(());
        }
        self.rows_on::<R>(reader)
    }

    // The head is row 0, and the rows of its list follow; the object's brace closes it.
    fn object<R: Row>(
        &mut self,
        reader: &mut Reader<'_>,
        head: Ask,
        word: &[u8],
    ) -> Result<(), Fault>
        requires { 1 + size (at reader.old) ≤ 65536 }
        ensures { out (λ _. self.new.asks.items) result (at reader.new) ≡ object_due head word.now R.due (at reader.old) }
    {
        self.asks.clear();
        self.asks.push_reserved(head);
        reader.mark(',')?;
        reader.member(word)?;
        self.list::<R>(reader)?;
        reader.mark('}')
    }

    // The first object: a model and its rules.
    pub(crate) fn model(&mut self, reader: &mut Reader<'_>) -> Result<(), Fault>
        requires { size (at reader.old) ≤ 65536 }
        ensures { out (λ _. self.new.asks.items) result (at reader.new) ≡ model_due (at reader.old) }
    {
        let opening = opening(reader)?;
        self.object::<RuleRow>(reader, Ask::Open(opening), b"rules")
    }

    // A later object: its first member's name says what it is. So far there are runs only.
    pub(crate) fn run(&mut self, reader: &mut Reader<'_>) -> Result<(), Fault>
        requires { size (at reader.old) ≤ 65536 }
        ensures { out (λ _. self.new.asks.items) result (at reader.new) ≡ run_due (at reader.old) }
    {
        let scale = scale(reader)?;
        self.object::<StepRow>(reader, Ask::Begin(scale), b"run")
    }
}
