//! The calls of a book.
ghost use Rattle.std.specs.Prelude.{◌≡◌, length};
ghost use Rattle.rules.specs.Books.{ranked_by};
ghost use Rattle.rules.specs.Rules.{rule};
ghost use Rattle.trading.specs.Written.{written};
ghost use Rattle.memory.specs.Following.{replied};

use super::Book;
use allocation::{Dealing, Ranking};
use memory::Reply;
use rules::{Call, Refusal, Row};

impl<K: Ranking, D: Dealing> Book<K, D> {
    /// Any of the eight calls, in every outcome: the answer, the rows in the front of the report, the rows behind them,
    /// and the book afterwards are what the rules give. A refused call leaves book and report as they were.
    pub fn call(&mut self, call: Call, report: &mut [Row]) -> Result<Reply, Refusal>
        ensures reply { result ≡ replied (rule (ranked_by K.initial K.good) D.meaning self.old (length report.old) call) }
        ensures report { report.new ≡ written report.old 0 (rule (ranked_by K.initial K.good) D.meaning self.old (length report.old) call).rows }
        ensures book { self.new ≡ (rule (ranked_by K.initial K.good) D.meaning self.old (length report.old) call).book }
    {
        calls::call(&mut self.memory, &self.dealing, call, report)
    }
}
