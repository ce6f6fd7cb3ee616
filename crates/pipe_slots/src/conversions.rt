//! Each operator as one of a plan.

use crate::call_back::CallBack;
use crate::phys_operator::PhysOperator;
use crate::place_holder::PlaceHolder;
use pipe_expr::PhysicalExpr;
use pipe_index::HashesKeys;
use pipe_ops::{
    FilterOperator, HstackOperator, Pass, ProjectionOperator, SimpleProjectionOperator,
};
use pipe_source::FunctionOperator;

impl<H: HashesKeys> From<FilterOperator<PhysicalExpr>> for PhysOperator<H> {
    fn from(operator: FilterOperator<PhysicalExpr>) -> PhysOperator<H> {
        PhysOperator::Filter(operator)
    }
}

impl<H: HashesKeys> From<SimpleProjectionOperator> for PhysOperator<H> {
    fn from(operator: SimpleProjectionOperator) -> PhysOperator<H> {
        PhysOperator::SimpleProjection(operator)
    }
}

impl<H: HashesKeys> From<ProjectionOperator<PhysicalExpr>> for PhysOperator<H> {
    fn from(operator: ProjectionOperator<PhysicalExpr>) -> PhysOperator<H> {
        PhysOperator::Projection(operator)
    }
}

impl<H: HashesKeys> From<HstackOperator<PhysicalExpr>> for PhysOperator<H> {
    fn from(operator: HstackOperator<PhysicalExpr>) -> PhysOperator<H> {
        PhysOperator::Hstack(operator)
    }
}

impl<H: HashesKeys> From<FunctionOperator> for PhysOperator<H> {
    fn from(operator: FunctionOperator) -> PhysOperator<H> {
        PhysOperator::Function(operator)
    }
}

impl<H: HashesKeys> From<Pass> for PhysOperator<H> {
    fn from(operator: Pass) -> PhysOperator<H> {
        PhysOperator::Pass(operator)
    }
}

impl<H: HashesKeys> From<PlaceHolder> for PhysOperator<H> {
    fn from(place: PlaceHolder) -> PhysOperator<H> {
        PhysOperator::PlaceHolder(place)
    }
}

impl<H: HashesKeys> From<CallBack<H>> for PhysOperator<H> {
    fn from(probe: CallBack<H>) -> PhysOperator<H> {
        PhysOperator::CallBack(probe)
    }
}
