ghost use Rattle.std.specs.Prelude.{List};
ghost use Rattle.vert_base.specs.declared.text.Span.{Span};
ghost use Rattle.vert_lex.specs.Text.{Placed};
ghost use Rattle.program_laws.specs.Readings.{
  ReadsSoundly,
  ReadsFully,
  IsReadOnce,
  RefusesSoundly,
  RefusesFully,
  IsRefusedOnce,
  RefusesNoProgram,
  IsJudged,
  StopsAtFault,
  HasOneFault,
};

/// The laws of reading programs, which its clauses say. It does nothing.
pub fn grammar_read()
    ensures sound { (tokens : List Placed) → ReadsSoundly tokens }
    ensures complete { (tokens : List Placed) → ReadsFully tokens }
    ensures once { (tokens : List Placed) → IsReadOnce tokens }
    ensures refused { (tokens : List Placed) → RefusesSoundly tokens }
    ensures found { (tokens : List Placed) → RefusesFully tokens }
    ensures refused_once { (tokens : List Placed) → IsRefusedOnce tokens }
    ensures none { (tokens : List Placed) → RefusesNoProgram tokens }
    ensures judged { (tokens : List Placed) → IsJudged tokens }
    ensures first { (tokens : List Placed) → (end : Span) → StopsAtFault tokens end }
    ensures first_once { (tokens : List Placed) → (end : Span) → HasOneFault tokens end }
{}
