//! Labels, as in mesos.proto: a list of keys with optional values.
ghost use Rattle.std.specs.Prelude.{◌≡◌, IfOk, OnOk};
ghost use Rattle.mes_json.specs.View.{view};
ghost use Rattle.mes_model_schema.specs.Appended.{Appends};
ghost use Rattle.mes_model_schema.specs.Kinds.{Returns};
ghost use Rattle.mes_model_schema.specs.Labels.{labels};

use crate::back::message_reads_back;
use crate::list::List;
use crate::message::{ConstructFrom, message_text, message_tree, read_message};
use crate::part::{Part, PartFault};
use crate::path_builder::PathBuilder;
use crate::row::{OptionalRow, RepeatedRow, RequiredRow};
use crate::row_list::RowList;
use crate::row_ref::RequiredRowRef;
use crate::row_ref_list::RowRefList;
use crate::row_tuples::{Rows1, Rows2};
use crate::write_row::copy_list;
use crate::{made, pairs};
use mes_json::{Element, Json, NoMemory, Text};
use std::alloc::Global;
use std::marker::Model;

/// A key with an optional value (`Label` in mesos.proto).
#[derive(Debug, Drop)]
pub struct Label {
    /// The key of the label.
    pub key: Text,
    /// The value of the label, if it has one.
    pub value: Option<Text>,
}

const LABEL_NAMES: [&str; 2] = ["key", "value"];

type LabelRows = Rows2<RequiredRow<Text>, OptionalRow<Text>>;

impl ConstructFrom<<LabelRows as RowList>::Values> for Label {
    ghost use Rattle.mes_model_schema.specs.Labels.{label_layout};

    ghost to = { label_layout.to };

    fn made_of(values: <LabelRows as RowList>::Values) -> Label {
        made!(values => Label { key, value })
    }
}

impl Part for Label {
    ghost use Rattle.mes_model_schema.specs.Labels.{label, lawful_label};

    ghost kind = { label };

    ghost STEPS = { 1 };

    const STEPS: u32 = 1;

    ghost lawful = { lawful_label };

    #[tactic(auto, unfolding(crate::specs::Labels::label))]
    fn read_from(
        alloc: Global,
        element: &Element<'_>,
        path: &PathBuilder<'_>,
    ) -> Result<Label, PartFault> {
        read_message::<LabelRows, Label, 2>(alloc, element, &LABEL_NAMES, path)
    }

    #[tactic(auto, using(crate::specs::Labels::label_back), unfolding(crate::specs::Labels::label))]
    fn tree(&self, alloc: Global) -> Result<Json, NoMemory> {
        message_tree(
            alloc,
            &LABEL_NAMES,
            &pairs!(RequiredRowRef(&self.key), &self.value),
        )
    }

    #[tactic(auto, using(crate::specs::Labels::label_back), unfolding(crate::specs::Labels::label))]
    fn write_json(&self, alloc: Global, out: &mut Vec<u8>) -> Result<u64, NoMemory> {
        message_text(
            alloc,
            &LABEL_NAMES,
            &pairs!(RequiredRowRef(&self.key), &self.value),
            out,
        )
    }

    fn copy(&self, alloc: Global) -> Result<Label, NoMemory> {
        let values = pairs!(RequiredRowRef(&self.key), &self.value).copy_rows(alloc)?;
        Ok(Label::made_of(values))
    }

    #[tactic(auto, using(crate::specs::Labels::label_back))]
    fn reads_back(&self) {
        message_reads_back(
            &LABEL_NAMES,
            &pairs!(RequiredRowRef(&self.key), &self.value),
        );
    }
}

/// Labels in order (`Labels` in mesos.proto). In contracts their value is the list of labels.
#[derive(Debug, Drop)]
pub struct Labels {
    labels: List<Label>,
}

impl Model for Labels {
    ghost use Rattle.std.specs.Prelude.{List as list};
    ghost use Rattle.mes_model_schema.specs.declared.label.Label.{Label as LabelValue};

    ghost Value = { list LabelValue };

    ghost view = { λ body. body.labels };
}

impl Labels {
    /// Takes over a list of labels. Does not allocate.
    pub fn new(labels: List<Label>) -> Labels
        ensures { result ≡ labels }
    {
        Labels { labels }
    }

    /// Borrows the labels in order.
    pub fn as_slice(&self) -> &[Label]
        ensures { result.now ≡ self.now }
    {
        self.labels.as_slice()
    }

    /// Returns the list of the labels, without a copy.
    pub fn into_list(self) -> List<Label>
        ensures { result ≡ self }
    {
        self.labels
    }
}

const LABELS_NAMES: [&str; 1] = ["labels"];

type LabelsRows = Rows1<RepeatedRow<Label>>;

impl ConstructFrom<<LabelsRows as RowList>::Values> for Labels {
    ghost use Rattle.mes_model_schema.specs.Labels.{labels_layout};

    ghost to = { labels_layout.to };

    fn made_of(values: <LabelsRows as RowList>::Values) -> Labels {
        made!(values => Labels { labels })
    }
}

impl Part for Labels {
    ghost use Rattle.mes_model_schema.specs.Labels.{labels, lawful_labels};

    ghost kind = { labels };

    ghost STEPS = { 3 };

    const STEPS: u32 = 3;

    ghost lawful = { lawful_labels };

    #[tactic(auto, unfolding(crate::specs::Labels::labels))]
    fn read_from(
        alloc: Global,
        element: &Element<'_>,
        path: &PathBuilder<'_>,
    ) -> Result<Labels, PartFault> {
        read_message::<LabelsRows, Labels, 1>(alloc, element, &LABELS_NAMES, path)
    }

    fn tree(&self, alloc: Global) -> Result<Json, NoMemory> {
        labels_tree(alloc, &self.labels)
    }

    fn write_json(&self, alloc: Global, out: &mut Vec<u8>) -> Result<u64, NoMemory> {
        labels_text(alloc, &self.labels, out)
    }

    fn copy(&self, alloc: Global) -> Result<Labels, NoMemory> {
        let labels = copy_list(alloc, &self.labels)?;
        Ok(Labels { labels })
    }

    fn reads_back(&self) {
        labels_read_back(&self.labels);
    }
}

/// Builds the JSON object of a list of labels, with the array as the member `labels`.
#[tactic(auto, using(crate::specs::Labels::labels_back), unfolding(crate::specs::Labels::labels))]
fn labels_tree(alloc: Global, list: &List<Label>) -> Result<Json, NoMemory>
    ensures tree { IfOk result (λ t. view t ≡ labels.tree list.now) }
    // On success: the labels are read back from the object.
    ensures back { OnOk result (Returns labels list.now) }
{
    message_tree(alloc, &LABELS_NAMES, &pairs!(list))
}

/// Appends the text of the JSON object of a list of labels, and returns its nesting depth.
#[tactic(auto, using(crate::specs::Labels::labels_back), unfolding(crate::specs::Labels::labels))]
fn labels_text(alloc: Global, list: &List<Label>, out: &mut Vec<u8>) -> Result<u64, NoMemory>
    ensures text { IfOk result (λ deep. Appends out.old.items (labels.tree list.now) out.new.items
        deep) }
    // On success: the labels are read back from the object.
    ensures back { OnOk result (Returns labels list.now) }
{
    message_text(alloc, &LABELS_NAMES, &pairs!(list), out)
}

/// Shows that labels are read back from their tree.
#[tactic(auto, using(crate::specs::Labels::labels_back))]
fn labels_read_back(list: &List<Label>)
    ensures { Returns labels list.now }
{
    message_reads_back(&LABELS_NAMES, &pairs!(list));
}
