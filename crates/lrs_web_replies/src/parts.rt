//! What the lists of answers are of, as JSON.

ghost use Rattle.std.specs.Prelude.{◌≡◌};
ghost use Rattle.lrs_web_replies.specs.Answers.{value_data};
ghost use Rattle.lrs_web_replies.specs.Members.{scalar_data};

use crate::list::{Shown, list_value};
use crate::members::{Member, Scalar, members_of, object_of, scalar_value, with_list};
use lrs_element::{Mark, Piece};
use lrs_events::Value as AssetValue;
use lrs_machine::{Hit, Segment, Total, piece_text};
use lrs_position::Referent;
use lrs_report_answers::FoundRow;
use serde_json::Value;
use std::alloc::{AllocError, Global};

impl Shown for Hit {
    ghost use Rattle.lrs_web_replies.specs.Answers.{hit_data};

    ghost shown = { hit_data };

    fn value(&self, alloc: Global) -> Result<Value, AllocError> {
        object_of(
            alloc,
            &[
                Member("asset", Scalar::Whole(self.asset.number)),
                Member("class", Scalar::Class(self.asset.class)),
                Member("entry", Scalar::Whole(self.asset.entered_by)),
                Member("offset", Scalar::Whole(u64::from(self.asset.lateral))),
                Member("side", Scalar::Side(self.side)),
                Member("value", Scalar::Held(self.asset.value)),
            ],
        )
    }
}

impl Shown for u64 {
    ghost use Rattle.lrs_web_replies.specs.JsonParts.{whole};

    ghost shown = { whole };

    fn value(&self, _alloc: Global) -> Result<Value, AllocError> {
        Ok(Value::from(*self))
    }
}

impl Shown for Mark {
    ghost use Rattle.lrs_web_replies.specs.Answers.{mark_data};

    ghost shown = { mark_data };

    fn value(&self, alloc: Global) -> Result<Value, AllocError> {
        list_value(alloc, &[self.chainage, self.measure])
    }
}

impl Shown for Piece {
    ghost use Rattle.lrs_web_replies.specs.Answers.{piece_data};

    ghost shown = { piece_data };

    fn value(&self, alloc: Global) -> Result<Value, AllocError> {
        let text = piece_text(alloc, self)?;
        Ok(Value::from(text))
    }
}

impl Shown for Referent {
    ghost use Rattle.lrs_web_replies.specs.Answers.{referent_data};

    ghost shown = { referent_data };

    fn value(&self, alloc: Global) -> Result<Value, AllocError> {
        object_of(
            alloc,
            &[
                Member("at", Scalar::Whole(self.at)),
                Member("name", Scalar::Referent(self.name)),
            ],
        )
    }
}

/// A value, or a dash where there is none.
fn held_or_dash(value: Option<AssetValue>) -> Scalar
    ensures { scalar_data result ≡ value_data value }
{
    match value {
        Some(value) => Scalar::Held(value),
        None => Scalar::Word("-"),
    }
}

impl Shown for Option<AssetValue> {
    ghost use Rattle.lrs_web_replies.specs.Answers.{value_data};

    ghost shown = { value_data };

    fn value(&self, alloc: Global) -> Result<Value, AllocError> {
        scalar_value(alloc, &held_or_dash(*self))
    }
}

impl Shown for Segment {
    ghost use Rattle.lrs_web_replies.specs.Answers.{segment_data};

    ghost shown = { segment_data };

    fn value(&self, alloc: Global) -> Result<Value, AllocError> {
        let members = members_of(
            alloc,
            &[
                Member("from", Scalar::Whole(self.from)),
                Member("to", Scalar::Whole(self.to)),
            ],
        )?;
        let members = with_list(alloc, members, "values", self.values.as_slice())?;
        Ok(Value::Object(members))
    }
}

impl Shown for Total {
    ghost use Rattle.lrs_web_replies.specs.Answers.{total_data};

    ghost shown = { total_data };

    fn value(&self, alloc: Global) -> Result<Value, AllocError> {
        object_of(
            alloc,
            &[
                Member("abandoned", Scalar::Whole(self.abandoned)),
                Member("class", Scalar::Class(self.class)),
                Member("entered", Scalar::Whole(self.entered)),
                Member("present", Scalar::Whole(self.present)),
                Member("retired", Scalar::Whole(self.retired)),
            ],
        )
    }
}

impl Shown for FoundRow {
    ghost use Rattle.lrs_web_replies.specs.Answers.{row_data};

    ghost shown = { row_data };

    fn value(&self, alloc: Global) -> Result<Value, AllocError> {
        object_of(
            alloc,
            &[
                Member("from", Scalar::Whole(self.from)),
                Member("route", Scalar::Route(self.route)),
                Member("side", Scalar::Side(self.side)),
                Member("to", Scalar::Whole(self.to)),
            ],
        )
    }
}
